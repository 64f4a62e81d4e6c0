//! What is known of the workers at first, and the programs of those that are started on demand.

ghost use Rattle.std.specs.Prelude.{◌≡◌, false, [], ⊤, IfOk, map, option_map, unwrap_or};
ghost use Rattle.std.specs.Net.Text.{socket_text};
ghost use Rattle.bm_programs.specs.Programs.{unmade};
ghost use Rattle.bm_programs.specs.WorkerPrograms.{all_without_process, AreProgramsOf, Changes, ChangesOne, Ends, IsProgramOf, Looks, Starts, unheard, without_process};

use crate::worker_process::{WorkerProcess, no_program};
use bm_board::Words;
use bm_config::{Config, WorkerConfig};
use bm_latent::{EndAct, WorkerState};
use bm_master::{KnownWorker, StartFailure};
use bm_operator::place_master;
use std::alloc::{AllocError, Global};
use std::marker::Model;
use std::net::SocketAddr;
use std::process::{Processes, SystemProcess};

/// The workers of a configuration, in their order, and their programs.
#[derive(Drop)]
pub struct WorkerList {
    pub workers: Vec<KnownWorker>,
    pub programs: WorkerPrograms,
}

/// The programs of the workers, in their order. None for a worker that connects by itself.
#[derive(Drop)]
pub struct WorkerPrograms {
    list: Vec<Option<WorkerProcess>>,
}

impl Model for WorkerPrograms {
    ghost use Rattle.std.specs.Prelude.{List, Option};
    ghost use Rattle.bm_programs.specs.declared.worker_process.WorkerProcess.{WorkerProcess};

    ghost Value = { List (Option WorkerProcess) };

    ghost view = { λ p. p.list.items };
}

impl WorkerPrograms {
    /// Starts the program of a worker.
    ///
    /// # Errors
    ///
    /// Why the system doesn't start it, or that there is none.
    #[tactic(auto, using(crate::proofs::ProgramLists::changes_here, crate::proofs::ProgramLists::changes_past))]
    pub fn start<R: Processes<Started = SystemProcess>>(
        &mut self,
        rt: &R,
        alloc: Global,
        worker: usize,
    ) -> Result<(), StartFailure>
        ensures { Changes (result ≡ Err (unmade [])) (Starts result) worker self.old self.new }
    {
        if worker >= self.list.len() {
            return Err(no_program());
        }
        start_one(&mut self.list[worker], rt, alloc)
    }

    /// Whether the program of a worker has ended, told once.
    #[tactic(auto, using(crate::proofs::ProgramLists::changes_here, crate::proofs::ProgramLists::changes_past))]
    pub fn has_ended(&mut self, worker: usize) -> bool
        ensures { Changes (result ≡ false) (Looks result) worker self.old self.new }
    {
        if worker >= self.list.len() {
            return false;
        }
        has_one_ended(&mut self.list[worker])
    }

    /// Asks the program of a worker to end, or kills it.
    #[tactic(auto, using(crate::proofs::ProgramLists::changes_here, crate::proofs::ProgramLists::changes_past))]
    pub fn end<R: Processes<Started = SystemProcess>>(
        &mut self,
        rt: &R,
        alloc: Global,
        worker: usize,
        act: EndAct,
    )
        ensures { Changes ⊤ (Ends act) worker self.old self.new }
    {
        if worker < self.list.len() {
            end_one(&mut self.list[worker], rt, alloc, act);
        }
    }

    /// Ends the programs that are still there.
    pub fn kill(&mut self)
        ensures { self.new ≡ all_without_process self.old }
    {
        kill_all(self.list.as_mut_slice());
    }
}

fn start_one<R: Processes<Started = SystemProcess>>(
    program: &mut Option<WorkerProcess>,
    rt: &R,
    alloc: Global,
) -> Result<(), StartFailure>
    ensures { ChangesOne (result ≡ Err (unmade [])) (Starts result) program.old program.new }
{
    match program {
        Some(program) => program.start(rt, alloc),
        None => Err(no_program()),
    }
}

fn has_one_ended(program: &mut Option<WorkerProcess>) -> bool
    ensures { ChangesOne (result ≡ false) (Looks result) program.old program.new }
{
    match program {
        Some(program) => program.has_ended(),
        None => false,
    }
}

fn end_one<R: Processes<Started = SystemProcess>>(
    program: &mut Option<WorkerProcess>,
    rt: &R,
    alloc: Global,
    act: EndAct,
)
    ensures { ChangesOne ⊤ (Ends act) program.old program.new }
{
    if let Some(program) = program {
        program.end(rt, alloc, act);
    }
}

// Ends each of these programs that is still there.
fn kill_all(programs: &mut [Option<WorkerProcess>])
    ensures { programs.new ≡ all_without_process programs.old }
{
    for program in programs.iter_mut() {
        kill_one(program);
    }
}

fn kill_one(program: &mut Option<WorkerProcess>)
    ensures { program.new ≡ option_map without_process program.old }
{
    if let Some(program) = program {
        program.kill();
    }
}

// What is known of a worker of which nothing was heard.
fn unheard(worker: &WorkerConfig) -> KnownWorker
    ensures { result ≡ unheard worker.now }
{
    let state = match &worker.latent {
        Some(_) => WorkerState::latent(worker.idle_ticks.max(1)),
        None => WorkerState::plain(),
    };
    KnownWorker::new(state)
}

// The program of a worker, where it has one. `master` is the address that it is given.
fn program_of(
    alloc: Global,
    worker: &WorkerConfig,
    master: &str,
) -> Result<Option<WorkerProcess>, AllocError>
    ensures { IfOk result (λ p. IsProgramOf master.now worker.now.latent p) }
{
    let Some(words) = &worker.latent else {
        return Ok(None);
    };
    let words = place_master(alloc, words.as_slice(), master)?;
    Ok(Some(WorkerProcess::new(Words::from_vec(words))))
}

fn known_workers(alloc: Global, workers: &[WorkerConfig]) -> Result<Vec<KnownWorker>, AllocError>
    ensures { IfOk result (λ known. known.items ≡ map unheard workers.now) }
{
    let mut known = Vec::new(alloc);
    for worker in workers {
        known.push(unheard(worker))?;
    }
    Ok(known)
}

fn programs_of(
    alloc: Global,
    workers: &[WorkerConfig],
    master: &str,
) -> Result<Vec<Option<WorkerProcess>>, AllocError>
    ensures { IfOk result (λ list. AreProgramsOf master.now workers.now list.items) }
{
    let mut programs = Vec::new(alloc);
    for worker in workers {
        programs.push(program_of(alloc, worker, master)?)?;
    }
    Ok(programs)
}

/// The workers of a configuration, of which nothing was heard. Their programs are told the
/// configuration's address, or else `at`.
///
/// # Errors
///
/// Memory is wanting.
pub fn workers_of(alloc: Global, config: &Config, at: SocketAddr) -> Result<WorkerList, AllocError>
    ensures known { IfOk result (λ l. l.workers.items ≡ map unheard config.now.workers) }
    ensures programs { IfOk result (λ l. AreProgramsOf
        (unwrap_or config.now.address (socket_text at)) config.now.workers l.programs) }
{
    let bound = format!(in alloc; "{at}")?;
    let master = match &config.address {
        Some(address) => address.as_str(),
        None => bound.as_str(),
    };
    let workers = known_workers(alloc, config.workers.as_slice())?;
    let list = programs_of(alloc, config.workers.as_slice(), master)?;
    let programs = WorkerPrograms { list };
    Ok(WorkerList { workers, programs })
}

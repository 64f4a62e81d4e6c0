//! Processes that carry a mark are looked for and killed, by a script that nobody waits for.

ghost use Rattle.std.specs.Prelude.{◌≡◌, ◌+◌, ◌-◌, ◌^◌, ◌∷◌, ◌++◌, [], IfNone, IfOk, MatchResult, None, OnErr, OnOk, Some, codes, if◌then◌else◌, is_ok, min, true};
ghost use Rattle.std.specs.IoError.{error_kind};
ghost use Rattle.std.specs.Option.{option_copied, option_to_list};
ghost use Rattle.std.specs.Process.{command_args, command_program};
ghost use Rattle.bm_worker_threads.specs.Sweeps.{Goes, IsShell, LooksFor, awaited, begun_after, has_failed, is_begun_again, seen, unstarted};

use crate::host::Host;
use bm_outbox::Sweep;
use std::alloc::{AllocError, Global};
use std::io::ErrorKind;
use std::process::{Child, Command, Processes, Stdio};
use std::time::Duration;
use std::{io, thread};

/// Looks for what carries a mark and kills it, until two looks in turn find nothing.
///
/// With one word that is the mark. With two it looks for what commands of workers left that are no
/// longer there. The first is what the marks of this user's workers begin with, the second what
/// this worker's own environment has of them. A word that is no mark could stand in any process,
/// and nothing is looked for then.
///
/// A process may start the next one and end before `grep` comes to it, and `grep` wasn't given the
/// next. So a look also goes through what was begun meanwhile, until nothing was begun since. The
/// fifth word of `/proc/loadavg` is the last number that was given to a process, and to read it
/// starts none. Where numbers went round, or are many, all processes are looked through again.
/// Others may begin processes all the time, so it is done five times a look at the most. Such a
/// look counts by what it found: else no kill on a busy machine would be told as done.
///
/// In a namespace of processes that has another one's `/proc` the numbers there are of other
/// processes. So nothing is killed where this shell has another number in it.
///
/// A killed process whose parent hasn't asked for its end has no environment any more, and isn't
/// found. On a busy machine one may wait for a processor that was killed a look before. It does
/// nothing more, and from the fifth round on it isn't counted. One that is in the last round isn't
/// ended by a kill: the script says so, and goes on behind itself. `SIGKILL` is the ninth bit of
/// what is pending, and state D is that of a process that a kill doesn't reach (proc(5)).
const SWEEP: &str = r#"
mark=$1
case $mark in buildworker-?*.?*.) ;; *) exit 5 ;; esac
PATH=$PATH:/usr/bin:/bin
command -v grep >/dev/null && [ -r /proc/self/environ ] || exit 3
read -r self _ </proc/self/stat && [ "$self" = $$ ] || exit 3
kill_marked() {
  found=$(grep -laF -e "$mark" "$@" /dev/null 2>/dev/null)
  [ $? -lt 100 ] || exit 5
  for file in $found; do
    process=${file%/environ}
    [ $round -ge 5 ] && is_ending "$process" || hit=1
    kill -9 "${process#/proc/}" 2>/dev/null
  done
}
is_ending() {
  state='' killed=''
  while read -r key value _; do
    case $key in
      State:) state=$value ;;
      SigPnd: | ShdPnd:) case $value in *[13579bdf]??) killed=1 ;; esac ;;
    esac
  done 2>/dev/null <"$1/status" || return 0
  [ -n "$killed" ] && [ "$state" != D ]
}
is_gone() {
  [ -e "/proc/$1" ] || return 0
  read -r told 2>/dev/null <"/proc/$1/stat" || return 1
  set -- "$2" ${told##*\) }
  [ "$2" = Z ] || [ "$2" = X ] || [ "${21}" != "$1" ]
}
kill_orphans() {
  found=$(grep -aoE -e "${mark}[0-9]+\.[0-9]+\." "$@" /dev/null 2>/dev/null)
  [ $? -lt 100 ] || exit 5
  for each in $found; do
    process=${each%%/environ:*} whole=${each#*:}
    case $outer in *"$whole"*) continue ;; esac
    worker=${whole#"$mark"} worker=${worker%.}
    is_gone "${worker%.*}" "${worker#*.}" || continue
    kill -9 "${process#/proc/}" 2>/dev/null && hit=1
  done
}
look() {
  hit='' turn=0
  read -r _ _ _ _ last </proc/loadavg || last=0
  set -- /proc/[0-9]*/environ
  while :; do
    [ $# -eq 0 ] || "$kill_them" "$@"
    read -r _ _ _ _ next </proc/loadavg || next=$last
    [ "$next" != "$last" ] || break
    turn=$((turn + 1))
    [ $turn -le 5 ] || break
    set --
    if [ "$next" -lt "$last" ] || [ "$next" -gt $((last + 1000)) ]; then
      last=$next
      set -- /proc/[0-9]*/environ
    fi
    while [ "$last" -lt "$next" ]; do
      last=$((last + 1))
      [ ! -e "/proc/$last/environ" ] || set -- "$@" "/proc/$last/environ"
    done
  done
  [ -n "$hit" ]
}
kill_them=kill_marked outer=${2-}
[ $# -eq 1 ] || kill_them=kill_orphans
round=0 clean=0
while [ $round -lt 30 ]; do
  round=$((round + 1))
  if look; then
    clean=0
    [ $round -lt 5 ] || sleep 0.02
  else
    clean=$((clean + 1))
    [ $clean -lt 2 ] || exit 0
  fi
done
[ $# -eq 1 ] || exit 4
( round=0; while [ $round -lt 60 ] && look; do round=$((round + 1)); sleep 1; done ) &
exit 4
"#;

/// How often a sweep that is waited for is looked at.
const LOOK_MS: u64 = 2;

/// How often it is looked at before the worker goes on without it: some five seconds.
const MOST_LOOKS: u32 = 2_500;

/// How often a sweep is begun at the most. A machine that is short of processes or memory may
/// refuse its shell or that shell's `grep`, or kill them. What the command started goes on then. So
/// it is tried again for a second or two, with a look between two tries.
const MOST_SWEEPS: u32 = 250;

/// A sweep: it goes on beside the worker.
#[derive(Drop)]
pub(crate) struct Sweeper {
    /// What begins it. None where there was no memory for that.
    command: Option<Command>,
    child: Option<Child>,
    state: Sweep,
    /// How often it was begun.
    begun: u32,
}

impl Sweeper {
    /// Looks for what carries this mark, and kills it.
    pub(crate) fn kill<R: Host>(rt: &R, alloc: Global, mark: &str) -> Sweeper
        ensures { LooksFor (mark.now ∷ []) result }
    {
        Sweeper::of(script(alloc, mark, None), rt)
    }

    /// Looks for what workers left that are no longer there, and kills it. Their marks begin so.
    /// What carries a mark that is among this worker's own is let be.
    pub(crate) fn kill_orphans<R: Host>(
        rt: &R,
        alloc: Global,
        place: &str,
        outer: &str,
    ) -> Sweeper {
        Sweeper::of(script(alloc, place, Some(outer)), rt)
    }

    /// A sweep by this command, which was begun once. Without a command it has failed for good.
    fn of<R: Host>(command: Result<Command, AllocError>, rt: &R) -> Sweeper
        ensures command { MatchResult command
            (λ c. result.command ≡ Some c) (λ _. result.command ≡ None) }
        ensures begun { result.begun ≡ (if is_ok command then 1 else 250) }
        ensures goes { Goes result }
        ensures failed { OnErr command (has_failed (seen result) ≡ true) }
    {
        let Ok(command) = command else {
            return Sweeper {
                command: None,
                child: None,
                state: Sweep::Failed,
                begun: MOST_SWEEPS,
            };
        };
        let mut sweeper = Sweeper {
            command: Some(command),
            child: None,
            state: Sweep::Failed,
            begun: 0,
        };
        sweeper.begin(rt);
        sweeper
    }

    /// Begins it, or begins it again.
    fn begin<R: Host>(&mut self, rt: &R)
        ensures begun { self.new.begun ≡ min (self.old.begun + 1) (2 ^ 32 - 1) }
        ensures command { self.new.command ≡ self.old.command }
        ensures goes { IfNone self.old.child (Goes self.new) }
    {
        self.begun = self.begun.saturating_add(1);
        let Some(command) = &self.command else {
            return;
        };
        let none = Stdio::null();
        match Processes::spawn(rt, command, &none, &none, &none) {
            Ok(child) => {
                self.child = Some(child);
                self.state = Sweep::Going;
            }
            Err(error) => self.state = unstarted(&error),
        }
    }

    /// What is known of it, once it was looked at. One that has failed is begun again by a later
    /// look.
    pub(crate) fn look<R: Host>(&mut self, rt: &R) -> Sweep
        ensures told { result ≡ seen self.new }
        ensures again { IfNone self.old.child
            (self.new.begun ≡ begun_after self.old.state self.old.begun) }
        ensures command { self.new.command ≡ self.old.command }
    {
        match &mut self.child {
            Some(child) => {
                match child.try_wait() {
                    Ok(None) => return Sweep::Going,
                    Ok(Some(status)) => self.state = Sweep::of_code(status.code()),
                    Err(_) => {
                        // What a further one comes to couldn't be known either.
                        self.state = Sweep::Failed;
                        self.begun = MOST_SWEEPS;
                    }
                }
                self.child = None;
            }
            None => {
                if is_begun_again(self.state, self.begun) {
                    self.begin(rt);
                }
            }
        }
        awaited(self.state, self.begun)
    }

    /// Waits for its end, for some five seconds at the most. It goes on by itself then.
    pub(crate) fn wait<R: Host>(&mut self, rt: &R)
        ensures { self.new.command ≡ self.old.command }
    {
        for _ in 0..MOST_LOOKS {
            if self.look(rt) != Sweep::Going {
                return;
            }
            thread::sleep(rt, Duration::from_millis(LOOK_MS));
        }
    }
}

/// Whether a sweep that has come to this is begun again, having been begun so often.
fn is_begun_again(state: Sweep, begun: u32) -> bool
    ensures { result ≡ is_begun_again state begun }
{
    matches!(state, Sweep::Failed) && begun < MOST_SWEEPS
}

/// What is told of it: one that is begun again counts as one that goes on.
fn awaited(state: Sweep, begun: u32) -> Sweep
    ensures { result ≡ awaited state begun }
{
    if is_begun_again(state, begun) {
        Sweep::Going
    } else {
        state
    }
}

/// Why a sweep wasn't started.
fn unstarted(error: &io::Error) -> Sweep
    ensures { result ≡ unstarted (error_kind error.now) }
{
    match error.kind() {
        ErrorKind::NotFound | ErrorKind::PermissionDenied => Sweep::NoTools,
        _ => Sweep::Failed,
    }
}

/// A shell that sweeps with these words.
fn script(alloc: Global, mark: &str, outer: Option<&str>) -> Result<Command, AllocError>
    ensures { IfOk result (IsShell (mark.now ∷ option_to_list (option_copied outer.entry))) }
{
    let mut command = Command::new(alloc, "/bin/sh")?;
    for_script(&mut command, SWEEP)?;
    for_marks(&mut command, mark, outer)?;
    Ok(command)
}

/// Gives a shell this script.
fn for_script(command: &mut Command, script: &str) -> Result<(), AllocError>
    ensures words { OnOk result (command_args command.new
        ≡ command_args command.old ++ codes "-c" ∷ script.now ∷ codes "sweep" ∷ []) }
    ensures program { OnOk result (command_program command.new ≡ command_program command.old) }
{
    command.arg("-c")?;
    command.arg(script)?;
    command.arg("sweep")?;
    Ok(())
}

/// Gives a script the marks that it looks for.
fn for_marks(command: &mut Command, mark: &str, outer: Option<&str>) -> Result<(), AllocError>
    ensures words { OnOk result (command_args command.new
        ≡ command_args command.old ++ mark.now ∷ option_to_list (option_copied outer.entry)) }
    ensures program { OnOk result (command_program command.new ≡ command_program command.old) }
{
    command.arg(mark)?;
    if let Some(outer) = outer {
        command.arg(outer)?;
    }
    Ok(())
}

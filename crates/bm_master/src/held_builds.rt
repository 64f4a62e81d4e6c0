//! The builds that hold their slots although they have their results.

ghost use Rattle.std.specs.Prelude.{◌≡◌, false, nat_lt, length, IfSome, position};
ghost use Rattle.std.specs.List.{list_all, list_any};
ghost use Rattle.bm_master.specs.Held.{IsNotedIn, IsTakenAt, IsTakenOut, is_free, is_of, is_vacant, no_held};

use bm_build_queue::HeldBuild;
use bm_lane::{Viewer, Yard};
use std::alloc::Global;
use std::marker::Model;

/// A command that a build has started.
#[derive(Clone, Copy)]
struct StartedCommand {
    build: u64,
    command: u64,
}

/// The commands that builds have started which run, and the builds that have their results while a
/// command of them may be open.
#[derive(Drop)]
pub struct HeldBuilds<Y: Yard> {
    alloc: Global,
    started: Vec<StartedCommand>,
    /// Each in a place of its own. A place without one is taken by the next.
    held: Vec<Option<HeldBuild<Y>>>,
}

impl<Y: Yard> Model for HeldBuilds<Y> {
    ghost use Rattle.bm_master.specs.Held.{HeldView};

    ghost Value = { HeldView };

    ghost view = { λ h. record { started = h.started.items; places = h.held.items } };
}

/// Looks at the commands of a build, up to one that may be open.
fn look_at<Y: Yard>(build: &mut HeldBuild<Y>)
    ensures number { build.new.number ≡ build.old.number }
    ensures lane { build.new.viewer.lane ≡ build.old.viewer.lane }
    ensures commands { build.new.commands ≡ build.old.commands }
{
    for _ in 0..build.commands() {
        if !build.look() {
            break;
        }
    }
}

/// Whether there is no build in the place.
fn is_vacant<Y: Yard>(place: &Option<HeldBuild<Y>>) -> bool
    ensures { result ≡ is_vacant place.now }
{
    place.is_none()
}

/// Whether the build of this number is in the place.
fn is_of<Y: Yard>(number: u64, place: &Option<HeldBuild<Y>>) -> bool
    ensures { result ≡ is_of number place.now }
{
    match place {
        Some(build) => build.number() == number,
        None => false,
    }
}

/// Whether there is a build of which no command was open at the last look.
fn is_free<Y: Yard>(place: &Option<HeldBuild<Y>>) -> bool
    ensures { result ≡ is_free place.now }
{
    match place {
        Some(build) => !build.has_open_command(),
        None => false,
    }
}

impl<Y: Yard> HeldBuilds<Y> {
    /// No build, and no command.
    pub fn new(alloc: Global) -> HeldBuilds<Y>
        ensures { result ≡ no_held }
    {
        HeldBuilds {
            alloc,
            started: Vec::new(alloc),
            held: Vec::new(alloc),
        }
    }

    /// Whether no build holds its slot.
    pub fn is_empty(&self) -> bool
        ensures { result ≡ list_all is_vacant self.now.places }
    {
        self.held.iter().all(|place| is_vacant(place))
    }

    /// Whether this build holds its slot.
    pub fn has(&self, number: u64) -> bool
        ensures { result ≡ list_any (is_of number) self.now.places }
    {
        self.held.iter().any(|place| is_of(number, place))
    }

    /// A build has started this command of its worker's lane. Where memory is wanting the slot
    /// isn't held for the command. A start that then finds no room on the lane is tried again all
    /// the same.
    pub fn note(&mut self, build: u64, command: u64)
        ensures { IsNotedIn self.old self.new (record { build = build; command = command }) }
    {
        let _ = self.started.push(StartedCommand { build, command });
    }

    /// The build of this number has its result: it, with the commands that it started.
    fn reported(&mut self, number: u64, viewer: Viewer<Y>) -> HeldBuild<Y>
        ensures number { result.number ≡ number }
        ensures lane { result.viewer.lane ≡ viewer.lane }
        ensures places { self.new.places ≡ self.old.places }
    {
        let mut commands = Vec::new(self.alloc);
        for started in self.started.iter() {
            if started.build == number {
                let _ = commands.push(started.command);
            }
        }
        self.started.retain(|started| started.build != number);
        HeldBuild::new(number, viewer, commands)
    }

    /// The build of this number has its result, and is held. Only a later look sees which of its
    /// commands have ended. It comes back where memory is wanting for that.
    pub fn hold(&mut self, number: u64, viewer: Viewer<Y>) -> Option<HeldBuild<Y>>
        ensures back { IfSome result (λ build. build.number ≡ number) }
        ensures lane { IfSome result (λ build. build.viewer.lane ≡ viewer.lane) }
        ensures unchanged { IfSome result (λ _. self.new.places ≡ self.old.places) }
    {
        let build = self.reported(number, viewer);
        self.put(build)
    }

    // The build is put into a place. It comes back where memory is wanting for one more.
    fn put(&mut self, build: HeldBuild<Y>) -> Option<HeldBuild<Y>>
        ensures back { IfSome result (λ b. b ≡ build) }
        ensures unchanged { IfSome result (λ _. self.new.places ≡ self.old.places) }
    {
        if let Some(at) = self.first_vacant() {
            if at < self.held.len() {
                self.held[at] = Some(build);
                return None;
            }
        }
        self.add(build)
    }

    // The build is put into a further place. It comes back where memory is wanting.
    fn add(&mut self, build: HeldBuild<Y>) -> Option<HeldBuild<Y>>
        ensures back { IfSome result (λ b. b ≡ build) }
        ensures unchanged { IfSome result (λ _. self.new.places ≡ self.old.places) }
    {
        if let Err(failed) = self.held.push(Some(build)) {
            return failed.value;
        }
        None
    }

    // The first place without a build.
    fn first_vacant(&self) -> Option<usize>
        ensures { result ≡ position is_vacant self.now.places }
    {
        self.held.iter().position(|place| is_vacant(place))
    }

    /// Looks which commands have ended by now.
    pub fn look(&mut self) {
        for place in self.held.iter_mut() {
            if let Some(build) = place {
                look_at(build);
            }
        }
    }

    /// Whether a build is held of which no command was open at the last look.
    pub fn has_free(&self) -> bool
        ensures { result ≡ list_any is_free self.now.places }
    {
        self.held.iter().any(|place| is_free(place))
    }

    // The build in this place is taken out of it.
    fn take_at(&mut self, at: usize) -> Option<HeldBuild<Y>>
        ensures { IfSome result (IsTakenAt self.old self.new at) }
    {
        match self.held.get_mut(at) {
            Some(place) => place.take(),
            None => None,
        }
    }

    // The first place with a build of which no command was open at the last look.
    fn first_free(&self) -> Option<usize>
        ensures { result ≡ position is_free self.now.places }
    {
        self.held.iter().position(|place| is_free(place))
    }

    /// A build that was held, and of which no command was open at the last look.
    #[tactic(auto, using(crate::proofs::Places::free_there))]
    pub fn take_free(&mut self) -> Option<HeldBuild<Y>>
        ensures free { IfSome result (λ build. nat_lt build.ended (length build.commands) ≡ false) }
        ensures taken { IfSome result (IsTakenOut self.old self.new) }
    {
        match self.first_free() {
            Some(at) => self.take_at(at),
            None => None,
        }
    }

    /// A build that was held, whatever becomes of its commands.
    pub fn take_any(&mut self) -> Option<HeldBuild<Y>>
        ensures { IfSome result (IsTakenOut self.old self.new) }
    {
        match self.held.iter().position(|place| !is_vacant(place)) {
            Some(at) => self.take_at(at),
            None => None,
        }
    }
}

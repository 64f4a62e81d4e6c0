//! The paths of the pages.
ghost use Rattle.std.specs.Prelude.{ℕ, List, ◌≡◌, IfSome, IsSomeAnd};
ghost use Rattle.matchit.specs.declared.error.InsertError.TheVariants.{OutOfMemory};
ghost use Rattle.std.proofs.Props.{props};
ghost use Rattle.bm_http.specs.Held.{held};
ghost use Rattle.bm_http.specs.Paths.{Names};

use matchit::{InsertError, Router};
use std::alloc::{AllocError, Global};

/// What there is to see of a log.
#[derive(Clone, Copy)]
pub enum Page {
    /// The log itself: `/api/v2/logs/{id}`.
    Log,
    /// Its lines: `/api/v2/logs/{id}/contents`.
    Contents,
}

/// What a path names.
#[derive(Clone, Copy)]
pub struct Found<'p> {
    /// What of the log is asked for.
    pub page: Page,
    /// The id of the log, a part of the path.
    pub id: &'p str,
}

/// The paths of the service.
#[derive(Drop)]
pub struct Paths {
    router: Router<Page>,
    ghost held: { router ≡ held } by { Prim.hlevel props },
}

// The error of a route that no other route stands in the way of.
fn only_memory(error: InsertError) -> AllocError
    requires { error ≡ OutOfMemory }
{
    match error {
        InsertError::OutOfMemory => AllocError,
        _ => unreachable!(),
    }
}

impl Paths {
    /// The paths, ready to be found.
    pub fn new(alloc: Global) -> Result<Paths, AllocError> {
        let mut router = Router::new(alloc);
        if let Err(error) = router.insert("/api/v2/logs/{id}", Page::Log) {
            return Err(only_memory(error));
        }
        if let Err(error) = router.insert("/api/v2/logs/{id}/contents", Page::Contents) {
            return Err(only_memory(error));
        }
        Ok(Paths { router })
    }

    /// What a path names, if it names anything.
    pub fn find<'p>(&self, path: &'p str) -> Option<Found<'p>>
        ensures named { IfSome result (λ found. Names path.now found.page found.id.now) }
        ensures all { (page : Page) (id : List ℕ) → Names path.now page id
            → IsSomeAnd result (λ found. (found.page ≡ page) × (found.id.now ≡ id)) }
    {
        let Ok(found) = self.router.at(path) else {
            return None;
        };
        let id = found.params.get("id")?;
        Some(Found {
            page: *found.value,
            id,
        })
    }
}

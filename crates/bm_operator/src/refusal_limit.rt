//! Which refused connections are told one by one.

ghost use Rattle.std.specs.Prelude.{◌≡◌, ◌==◌, bytes_eq, if◌then◌else◌, OnOk, OnErr};
ghost use Rattle.std.specs.List.{list_any};
ghost use Rattle.bm_operator.specs.RateLimit.{is_left_out, left_out_before};
ghost use Rattle.bm_operator.specs.RefusalLimit.{has_told, is_told, no_refusals, refusals_after, with_name};

use crate::rate_limit::RateLimit;
use bm_lines::Text;
use std::alloc::{AllocError, Global};
use std::marker::Model;

/// Lets a few refused connections be told in each second, one of each name. A worker whose login is
/// refused comes again and again, and would hide all others.
#[derive(Drop)]
pub struct RefusalLimit {
    limit: RateLimit,
    /// The names of those that were told in the second of the last one.
    names: Vec<Text>,
}

impl Model for RefusalLimit {
    ghost use Rattle.bm_operator.specs.RefusalLimit.{Refusals};

    ghost Value = { Refusals };

    ghost view = { λ l. record { limit = l.limit; names = l.names.items } };
}

impl RefusalLimit {
    /// Lets `most` be told in each second.
    pub fn new(alloc: Global, most: u32) -> RefusalLimit
        ensures { result ≡ no_refusals most }
    {
        RefusalLimit {
            limit: RateLimit::new(most),
            names: Vec::new(alloc),
        }
    }

    /// A connection is refused in this second, and its login gave this name. The answer is whether
    /// it is told. Where it isn't, it is counted, up to 2^64-1.
    pub fn tells(&mut self, second: u64, name: &Option<Text>) -> bool
        ensures result { result ≡ is_told self.old second name.now }
        ensures limit { self.new ≡ refusals_after self.old second name.now }
    {
        if !self.limit.is_in(second) {
            self.names.clear();
        }
        if has_told(name, &self.names) {
            self.limit.leave_out(second);
            return false;
        }
        self.limit.allows(second)
    }

    /// One of this name was told.
    ///
    /// # Errors
    ///
    /// Memory is wanting: nothing has changed, so that another one of this name may be told.
    pub fn note(&mut self, name: Text) -> Result<(), AllocError>
        ensures noted { OnOk result (self.new ≡ with_name name self.old) }
        ensures err { OnErr result (self.new ≡ self.old) }
    {
        match self.names.push(name) {
            Ok(()) => Ok(()),
            Err(_) => Err(AllocError),
        }
    }

    /// How many were not told in seconds before this one, each counted once.
    pub fn take_left_out(&mut self, second: u64) -> u64
        ensures count { result ≡ left_out_before self.old.limit second }
        ensures limit { self.new.limit ≡ record {
          most = self.old.limit.most;
          second = self.old.limit.second;
          allowed = self.old.limit.allowed;
          left_out = (if self.old.limit.second == second then self.old.limit.left_out else 0);
        } }
        ensures names { self.new.names ≡ self.old.names }
    {
        self.limit.take_left_out(second)
    }

    /// Whether there is a count of refused connections that wasn't taken yet.
    pub fn is_left_out(&self) -> bool
        ensures { result ≡ is_left_out self.now.limit }
    {
        self.limit.is_left_out()
    }
}

/// Whether a login of this name was told.
fn has_told(name: &Option<Text>, names: &[Text]) -> bool
    ensures { result ≡ has_told name.now names.now }
{
    match name {
        Some(name) => is_among(names, name.as_str()),
        None => false,
    }
}

fn is_among(names: &[Text], name: &str) -> bool
    ensures { result ≡ list_any (λ told. bytes_eq told name.now) names.now }
{
    names.iter().any(|told| is_named(told, name))
}

fn is_named(text: &Text, name: &str) -> bool
    ensures { result ≡ bytes_eq text.now name.now }
{
    text.as_str() == name
}

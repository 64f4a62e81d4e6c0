//! The words of a command.

ghost use Rattle.std.specs.Prelude.{◌≡◌, IfOk, Some};
ghost use Rattle.std.specs.Option.{option_copied};
ghost use Rattle.bm_value.specs.View.{tree, items_tree};
ghost use Rattle.bm_value.specs.Tree.{array, str};
ghost use Rattle.bm_work.specs.Argv.{argv_of, words_of, str_of};

use bm_lines::Text;
use bm_value::{Items, Value};
use std::alloc::{AllocError, Global};
use std::marker::Model;

/// A program and its words, in order. It isn't a `Listed` of `bm_board`, since this crate sees no
/// crate of builds.
#[derive(Drop)]
pub struct Argv {
    words: Vec<Text>,
}

impl Model for Argv {
    ghost use Rattle.std.specs.Prelude.{List, ℕ};

    ghost Value = { List (List ℕ) };

    ghost view = { λ a. a.words.items };
}

impl Argv {
    /// The words of this vector, in their order.
    pub fn from_vec(words: Vec<Text>) -> Argv
        ensures { result ≡ words.items }
    {
        Argv { words }
    }

    /// The words by value.
    pub fn into_vec(self) -> Vec<Text>
        ensures { result.items ≡ self }
    {
        let Argv { words } = self;
        words
    }

    /// The words in their order.
    pub fn as_slice(&self) -> &[Text]
        ensures { result.now ≡ self.now }
    {
        self.words.as_slice()
    }

    /// Equal words.
    pub fn copy(&self) -> Result<Argv, AllocError>
        ensures { IfOk result (λ argv. argv ≡ self.now) }
    {
        let mut words = Vec::with_capacity(*self.words.allocator(), self.words.len())?;
        for word in &self.words {
            words.push(word.copy()?)?;
        }
        Ok(Argv { words })
    }

    /// The words of a command with these arguments, or `None` where they name none.
    pub(crate) fn of_args(alloc: Global, args: &Value<Global>) -> Result<Option<Argv>, AllocError>
        ensures { IfOk result (λ argv. argv ≡ argv_of (tree args.now)) }
    {
        match args.get("command") {
            Some(Value::Str(line)) => Ok(Some(shell(alloc, line.as_str())?)),
            Some(Value::Array(items)) => strs(alloc, items),
            _ => Ok(None),
        }
    }
}

/// The words that let a shell run the line.
fn shell(alloc: Global, line: &str) -> Result<Argv, AllocError>
    ensures { IfOk result (λ argv. Some argv ≡ words_of (Some (str line.now))) }
{
    let mut words = Vec::with_capacity(alloc, 3)?;
    words.push(Text::from_str(alloc, "sh")?)?;
    words.push(Text::from_str(alloc, "-c")?)?;
    words.push(Text::from_str(alloc, line)?)?;
    Ok(Argv { words })
}

/// The strs of an array that has at least one and nothing else.
fn strs(alloc: Global, items: &Items<Global>) -> Result<Option<Argv>, AllocError>
    ensures { IfOk result (λ argv. argv ≡ words_of (Some (array (items_tree items.now)))) }
{
    if items.vec.is_empty() {
        return Ok(None);
    }
    let mut words = Vec::with_capacity(alloc, items.vec.len())?;
    for item in &items.vec {
        let Some(word) = as_str(item) else {
            return Ok(None);
        };
        words.push(Text::from_str(alloc, word)?)?;
    }
    Ok(Some(Argv { words }))
}

fn as_str(value: &Value<Global>) -> Option<&str>
    ensures { option_copied result ≡ str_of (tree value.now) }
{
    match value {
        Value::Str(text) => Some(text.as_str()),
        _ => None,
    }
}

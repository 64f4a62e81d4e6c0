//! A reader of bytes from left to right.

ghost use Rattle.std.specs.Prelude.{◌≡◌, ◌<◌, ◌≤◌, ◌-◌, ◌^◌, length};
ghost use Rattle.bm_value.specs.declared.row.Wide.TheVariants as wide;
ghost use Rattle.bm_value.specs.Row.{width};
ghost use Rattle.bm_value.specs.View.{tree, items_tree, pair_tree, pairs_tree};
ghost use Rattle.bm_value.specs.Reading.{Gives, number_at, signed_at, length_at, bytes_at, text_at, binary_at, extension_at, plain_at, items_at, pair_at, pairs_at, inner, array_with, map_with, value_at};

use crate::bytes::Bytes;
use crate::fault::DecodeError;
use crate::num::Num;
use crate::row::{Plain, Row, Size, Wide, row_of};
use crate::value::{Items, Pair, Pairs, Value};
use crate::value_text::ValueText;
use std::alloc::Allocator;
use std::str::from_utf8;

/// The bytes that are left to be read, and where what is read shall lie. After an error nothing is
/// said of what is left.
#[derive(Drop)]
pub struct Reader<'a, A: Allocator> {
    pub alloc: A,
    pub rest: &'a [u8],
}

impl<'a, A: Allocator + Copy> Reader<'a, A> {
    /// So many bytes.
    fn bytes(&mut self, n: u64) -> Result<&'a [u8], DecodeError>
        ensures { Gives (λ x. (x.now, self.new.rest.now)) result (bytes_at n self.old.rest.now) }
    {
        if (self.rest.len() as u64) < n {
            return Err(DecodeError::Truncated);
        }
        let (front, rest) = self.rest.split_at(n as usize);
        self.rest = rest;
        Ok(front)
    }

    fn one(&mut self) -> Result<u8, DecodeError>
        ensures { Gives (λ n. (n, self.new.rest.now)) result
            (number_at (width wide.One) self.old.rest.now) }
    {
        let b = self.bytes(1)?;
        Ok(b[0])
    }

    fn two(&mut self) -> Result<u16, DecodeError>
        ensures { Gives (λ n. (n, self.new.rest.now)) result
            (number_at (width wide.Two) self.old.rest.now) }
    {
        let b = self.bytes(2)?;
        Ok(u16::from_be_bytes([b[0], b[1]]))
    }

    fn four(&mut self) -> Result<u32, DecodeError>
        ensures { Gives (λ n. (n, self.new.rest.now)) result
            (number_at (width wide.Four) self.old.rest.now) }
    {
        let b = self.bytes(4)?;
        Ok(u32::from_be_bytes([b[0], b[1], b[2], b[3]]))
    }

    fn eight(&mut self) -> Result<u64, DecodeError>
        ensures { Gives (λ n. (n, self.new.rest.now)) result
            (number_at (width wide.Eight) self.old.rest.now) }
    {
        let b = self.bytes(8)?;
        Ok(u64::from_be_bytes([b[0], b[1], b[2], b[3], b[4], b[5], b[6], b[7]]))
    }

    fn number(&mut self, wide: Wide) -> Result<u64, DecodeError>
        ensures { Gives (λ n. (n, self.new.rest.now)) result
            (number_at (width wide) self.old.rest.now) }
    {
        match wide {
            Wide::One => Ok(u64::from(self.one()?)),
            Wide::Two => Ok(u64::from(self.two()?)),
            Wide::Four => Ok(u64::from(self.four()?)),
            Wide::Eight => self.eight(),
        }
    }

    /// A number with a sign.
    fn signed(&mut self, wide: Wide) -> Result<Num, DecodeError>
        ensures { Gives (λ n. (n, self.new.rest.now)) result (signed_at wide self.old.rest.now) }
    {
        match wide {
            Wide::One => Ok(Num::of_i64(i64::from(self.one()?.cast_signed()))),
            Wide::Two => Ok(Num::of_i64(i64::from(self.two()?.cast_signed()))),
            Wide::Four => Ok(Num::of_i64(i64::from(self.four()?.cast_signed()))),
            Wide::Eight => Ok(Num::of_i64(self.eight()?.cast_signed())),
        }
    }

    /// A length or a count.
    fn length(&mut self, size: Size) -> Result<u64, DecodeError>
        ensures { Gives (λ n. (n, self.new.rest.now)) result (length_at size self.old.rest.now) }
    {
        match size {
            Size::Here(n) => Ok(u64::from(n)),
            Size::Field(wide) => self.number(wide),
        }
    }

    #[tactic(auto, using(crate::proofs::Utf8::utf8_tests), unfolding(crate::specs::Reading::text_at))]
    fn text(&mut self, size: Size) -> Result<ValueText<A>, DecodeError>
        ensures { Gives (λ x. (x, self.new.rest.now)) result (text_at size self.old.rest.now) }
    {
        let n = self.length(size)?;
        let bytes = self.bytes(n)?;
        match from_utf8(bytes) {
            Ok(text) => Ok(ValueText::from_str(self.alloc, text)?),
            Err(_) => Err(DecodeError::BadUtf8),
        }
    }

    #[tactic(auto, unfolding(crate::specs::Reading::binary_at))]
    fn binary(&mut self, size: Size) -> Result<Bytes<A>, DecodeError>
        ensures { Gives (λ x. (x, self.new.rest.now)) result (binary_at size self.old.rest.now) }
    {
        let n = self.length(size)?;
        let bytes = self.bytes(n)?;
        Ok(Bytes::from_vec(Vec::from_slice(self.alloc, bytes)?))
    }

    /// An application's type and its bytes.
    #[tactic(auto, unfolding(crate::specs::Reading::extension_at))]
    fn extension(&mut self, size: Size) -> Result<(i8, Bytes<A>), DecodeError>
        ensures { Gives (λ x. ((x.0, x.1), self.new.rest.now)) result
            (extension_at size self.old.rest.now) }
    {
        let n = self.length(size)?;
        let kind = self.one()?;
        let bytes = self.bytes(n)?;
        Ok((
            kind.cast_signed(),
            Bytes::from_vec(Vec::from_slice(self.alloc, bytes)?),
        ))
    }

    /// A value with no value inside, behind its first byte.
    #[tactic(auto, unfolding(crate::specs::Reading::plain_at))]
    fn plain(&mut self, plain: Plain) -> Result<Value<A>, DecodeError>
        ensures { Gives (λ v. (tree v, self.new.rest.now)) result
            (plain_at plain self.old.rest.now) }
    {
        match plain {
            Plain::Nil => Ok(Value::Nil),
            Plain::Bool(b) => Ok(Value::Bool(b)),
            Plain::Small(n) => Ok(Value::Int(Num::of_i64(i64::from(n)))),
            Plain::Unsigned(wide) => Ok(Value::Int(Num::of_u64(self.number(wide)?))),
            Plain::Signed(wide) => Ok(Value::Int(self.signed(wide)?)),
            Plain::Bits32 => Ok(Value::Bits32(self.four()?)),
            Plain::Bits64 => Ok(Value::Bits64(self.eight()?)),
            Plain::Str(size) => Ok(Value::Str(self.text(size)?)),
            Plain::Bin(size) => Ok(Value::Bin(self.binary(size)?)),
            Plain::Ext(size) => {
                let (kind, bytes) = self.extension(size)?;
                Ok(Value::Ext(kind, bytes))
            }
        }
    }

    /// The value at the front, where arrays and maps may nest `room` deep.
    #[cycle(read)]
    pub fn value(&mut self, room: u32) -> Result<Value<A>, DecodeError>
        ensures { Gives (λ v. (tree v, self.new.rest.now)) result
            (value_at room self.old.rest.now) }
    {
        let first = self.one()?;
        match row_of(first) {
            Row::Plain(plain) => self.plain(plain),
            Row::Array(size) => self.array(size, room),
            Row::Map(size) => self.map(size, room),
            Row::Reserved => Err(DecodeError::Reserved),
        }
    }

    #[cycle(read)]
    fn array(&mut self, size: Size, room: u32) -> Result<Value<A>, DecodeError>
        ensures { Gives (λ v. (tree v, self.new.rest.now)) result
            (array_with (inner room) size self.old.rest.now) }
    {
        if room == 0 {
            return Err(DecodeError::TooDeep);
        }
        let count = self.length(size)?;
        let items = self.items(count, room - 1)?;
        Ok(Value::Array(items))
    }

    #[cycle(read)]
    fn map(&mut self, size: Size, room: u32) -> Result<Value<A>, DecodeError>
        ensures { Gives (λ v. (tree v, self.new.rest.now)) result
            (map_with (inner room) size self.old.rest.now) }
    {
        if room == 0 {
            return Err(DecodeError::TooDeep);
        }
        let count = self.length(size)?;
        let pairs = self.pairs(count, room - 1)?;
        Ok(Value::Map(pairs))
    }

    /// So many values. Memory is taken for those that were read, never by their claimed count.
    #[cycle(read)]
    fn items(&mut self, count: u64, room: u32) -> Result<Items<A>, DecodeError>
        ensures { Gives (λ x. (items_tree x, self.new.rest.now)) result
            (items_at (value_at room) count self.old.rest.now) }
    {
        let mut vec = Vec::new(self.alloc);
        'items: for _ in 0..count {
            let item = self.value(room)?;
            vec.push(item)?;
        }
        Ok(Items { vec })
    }

    /// So many pairs, as the items of an array.
    #[cycle(read)]
    fn pairs(&mut self, count: u64, room: u32) -> Result<Pairs<A>, DecodeError>
        ensures { Gives (λ x. (pairs_tree x, self.new.rest.now)) result
            (pairs_at (value_at room) count self.old.rest.now) }
    {
        let mut vec = Vec::new(self.alloc);
        'pairs: for _ in 0..count {
            let pair = self.pair(room)?;
            vec.push(pair)?;
        }
        Ok(Pairs { vec })
    }

    #[cycle(read)]
    fn pair(&mut self, room: u32) -> Result<Pair<A>, DecodeError>
        ensures { Gives (λ x. (pair_tree x, self.new.rest.now)) result
            (pair_at (value_at room) self.old.rest.now) }
    {
        let key = self.value(room)?;
        let value = self.value(room)?;
        Ok(Pair { key, value })
    }
}

//! How the published copy is made, with its readers.
ghost use Rattle.std.specs.Prelude.{◌≡◌, [], ◌<◌, ◌≤◌, ◌^◌, drop, All, IfOk, OnOk, MatchResult};
ghost use Rattle.std.specs.Prelude.{Some, length};
ghost use Rattle.left_right.specs.Sides.{view};
ghost use Rattle.bm_lane.specs.Copies.{IsBook};
ghost use Rattle.bm_lane.specs.BookReaders.{AllFresh};

use crate::book_reader::BookReader;
use crate::history::{Front, Head};
use crate::published::{Published, Tells};
use crate::publisher::{CopyWriter, Publisher, publish};
use crate::refusals::OpenError;
use bm_store::Book;
use std::alloc::{AllocError, Global};
use std::sync::Wait;

fn empty(alloc: Global, front: &Front) -> Published
    requires { front.now.log ≡ [] }
    ensures { IsBook result × (result.front ≡ front.now) × (result.book ≡ []) × (result.count ≡ 0) }
{
    Published {
        book: Book::new(alloc),
        count: 0,
        front: front.again(),
    }
}

fn book_reader(copy: &mut CopyWriter) -> Result<BookReader, AllocError>
    requires { (view copy.old.desk.place ≡ Some copy.old.desk.shown.value.front)
        × IsBook copy.old.desk.shown.value }
    ensures kept { (copy.new.desk.shown ≡ copy.old.desk.shown) × (copy.new.log ≡ copy.old.log)
        × (copy.new.behind ≡ copy.old.behind)
        × (view copy.new.desk.place ≡ view copy.old.desk.place) }
    ensures seen { IfOk result (λ b. (b.history ≡ copy.old.desk.shown.value.front.book)
        × (b.seen ≡ copy.old.desk.shown.value.front.log)) }
{
    let mut reader = copy.factory().reader()?;
    reader.learn::<Tells>(copy.tell::<Tells>());
    let now = copy.published();
    Ok(BookReader::over(reader, now.front.again(), now.count))
}

fn book_readers(
    copy: &mut CopyWriter,
    alloc: Global,
    count: usize,
) -> Result<Vec<BookReader>, OpenError>
    requires { (view copy.old.desk.place ≡ Some copy.old.desk.shown.value.front)
        × IsBook copy.old.desk.shown.value }
    ensures kept { (copy.new.desk.shown ≡ copy.old.desk.shown)
        × (drop copy.new.behind copy.new.log.items ≡ drop copy.old.behind copy.old.log.items) }
    ensures seen { IfOk result
        (λ bs. AllFresh copy.old.desk.shown.value.front.book copy.old.desk.shown.value.front.log
        bs.items
        × (length bs.items ≡ count)) }
{
    let mut book_readers = Vec::new(alloc);
    for made in 0..count {
        match book_reader(copy) {
            Ok(book_reader) => {
                if book_readers.push(book_reader).is_err() {
                    return Err(OpenError::Mem);
                }
            }
            Err(_) => return Err(OpenError::NoPlace),
        }
    }
    Ok(book_readers)
}

/// An empty copy, with so many readers.
pub fn open_copy<R: Wait + Drop>(
    rt: R,
    alloc: Global,
    viewers: usize,
) -> Result<(Publisher<R>, Vec<BookReader>), OpenError>
    requires { (0 < viewers) × (viewers ≤ 64) }
    ensures { IfOk result (λ t. (t.0.shown ≡ []) × (t.0.held ≡ []) × (t.0.kept ≡ [])
        × AllFresh t.0.history [] t.1.items × (length t.1.items ≡ viewers)) }
{
    let head = Head::new();
    let first = empty(alloc, &head.all);
    let second = empty(alloc, &head.all);
    let Ok(copy) = CopyWriter::new(alloc, first, second, viewers) else {
        return Err(OpenError::Mem);
    };
    let (mut copy, named) = publish(copy, &rt);
    if named.is_err() {
        copy.take(&rt);
        return Err(OpenError::Mem);
    }
    match book_readers(&mut copy, alloc, viewers) {
        Ok(list) => Ok((Publisher::over(rt, copy, head), list)),
        Err(error) => {
            copy.take(&rt);
            Err(error)
        }
    }
}

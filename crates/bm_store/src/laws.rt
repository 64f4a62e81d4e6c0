//! Whose logs a book has, as a contract.

ghost use Rattle.bm_store.specs.Laws.{BooksHaveTheLogs, VisibleBooksHaveTheLogs, BooksAnswerLooks, KeptBooksMeanLogs, LogsGrow};

/// Where each event of a trace was taken, the book of its items has the logs, by name, and the
/// outcomes of the trace. The book of the first `d` items has those of the prefix that viewers see,
/// and answers each look as that prefix does.
pub fn books_have_the_logs()
    ensures all { BooksHaveTheLogs }
    ensures visible { VisibleBooksHaveTheLogs }
    ensures answers { BooksAnswerLooks }
{}

/// The lists that contracts see of a book mean the logs that its items make.
pub fn kept_books_mean_logs()
    ensures { KeptBooksMeanLogs }
{}

/// A log only gets blocks at its end, whatever items come.
pub fn logs_grow()
    ensures { LogsGrow }
{}

//! The connections of those who were taken in, as tasks that may be polled.
ghost use Rattle.std.specs.Prelude.{◌≡◌};
ghost use Rattle.futures.specs.Runs.{ItemsWhere};
ghost use Rattle.hyper.specs.ServerDispatch.{GivesBodies, Runs};

use bytes::Bytes;
use futures::task::{Context, Poll};
use futures::{Future, Stream};
use http_body::Body;
use hyper::body::Incoming;
use hyper::rt::Timer;
use hyper::server::conn::http1::{Builder, Connection};
use hyper::service::Service;
use hyper::{Request, Response};
use tokio::io::{AsyncRead, AsyncWrite};

/// A socket with its service, and with the place that it holds.
#[derive(Drop)]
pub struct Visit<I, P, K> {
    pub socket: I,
    pub pages: P,
    pub place: K,
}

/// Runs a connection to its end, drops what came of it and then gives its place back.
#[derive(Drop)]
pub struct Task<F, K> {
    future: F,
    place: K,
}

impl<X: Drop, F: Future<Output = X>, K: Drop> Future for Task<F, K> {
    type Output = ();

    ghost can_poll = { λ t. F.can_poll t.future };

    ghost needs = { λ t. F.needs t.future };

    fn poll(&mut self, cx: &mut Context<'_>) -> Poll<()> {
        match self.future.poll(cx) {
            Poll::Ready(_output) => Poll::Ready(()),
            Poll::Pending => Poll::Pending,
        }
    }
}

/// A connection for each visit of a stream.
#[derive(Drop)]
pub struct Connections<S, T> {
    admitted: S,
    http: Builder<T>,
}

impl<S, T> Connections<S, T> {
    /// A connection for each visit of `admitted`, served by the settings of `http`.
    pub fn new(admitted: S, http: Builder<T>) -> Connections<S, T>
        ensures { result ≡ record { admitted = admitted; http = http } }
    {
        Connections { admitted, http }
    }
}

impl<I, P, K, B, S, T> Stream for Connections<S, T>
where
    S: Stream<Item = Visit<I, P, K>>,
    I: AsyncRead + AsyncWrite,
    P: Service<Request<Incoming<I>>, Response = Response<B>>,
    P::Error: Into<anyhow::Error>,
    K: Drop,
    B: Body,
    B::Data: Into<Bytes>,
    B::Error: Into<anyhow::Error>,
    T: Timer,
{
    type Item = Task<Connection<I, P, B, T>, K>;

    ghost can_poll = { λ c. S.can_poll c.admitted × ((p : P) → P.can_call p)
        × ((p : P) (req : _) (future : _) → P.calls p req future
        → GivesBodies P.Future.gives B.can_poll future) };

    ghost needs = { λ c. S.needs c.admitted };

    ghost yields = { λ _. ItemsWhere (λ t. Runs I.AsyncRead I.AsyncWrite P.Service P.Future.Future
        B.Body B.Data.Into t.future.conn) };

    fn poll_next(&mut self, cx: &mut Context<'_>) -> Poll<Option<Self::Item>> {
        match self.admitted.poll_next(cx) {
            Poll::Ready(Some(visit)) => {
                let Visit {
                    socket,
                    pages,
                    place,
                } = visit;
                let future = self.http.serve_connection(socket, pages);
                Poll::Ready(Some(Task { future, place }))
            }
            Poll::Ready(None) => Poll::Ready(None),
            Poll::Pending => Poll::Pending,
        }
    }
}

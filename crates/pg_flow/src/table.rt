//! Where each answer leads.

ghost use Rattle.std.specs.Prelude.{◌≡◌};
ghost use Rattle.pg_flow.specs.Plain.{ends_ready};
ghost use Rattle.pg_flow.specs.Table.{next_of, at_statement, at_next_statement, at_row_sets, at_data, at_next_copy, at_last_rows, at_data_both, at_complete, at_ready, in_query, at_portal, at_portal_rows, in_execute, in_call, in_sync, at_description, in_statement, in_portal};

use crate::answer::Answer;
use crate::place::Place;
use crate::request::Request;

/// Where an answer leads.
#[derive(Clone, Copy, Debug, PartialEq, Eq)]
pub enum Next {
    /// The answer goes on.
    At(Place),
    /// The request is answered.
    Done,
    /// The message doesn't come here.
    Wrong,
}

fn statement(answer: Answer) -> Next
    ensures { result ≡ at_statement answer }
{
    match answer {
        Answer::RowDescription => Next::At(Place::Rows),
        Answer::CommandComplete | Answer::EmptyQuery => Next::At(Place::Over),
        Answer::CopyOut => Next::At(Place::Out),
        Answer::CopyIn => Next::At(Place::Asked),
        Answer::CopyBoth => Next::At(Place::Both),
        _ => Next::Wrong,
    }
}

fn row_sets(answer: Answer) -> Next
    ensures { result ≡ at_row_sets answer }
{
    match answer {
        Answer::RowDescription | Answer::DataRow => Next::At(Place::Rows),
        Answer::CommandComplete => Next::At(Place::Over),
        _ => Next::Wrong,
    }
}

fn copied(answer: Answer) -> Next
    ensures { result ≡ at_data answer }
{
    match answer {
        Answer::CopyData => Next::At(Place::Out),
        Answer::CopyDone => Next::At(Place::OutDone),
        _ => Next::Wrong,
    }
}

// Behind the data of a COPY in a Query: those of another, or rows, may come before the CommandComplete.
fn next_copy(answer: Answer) -> Next
    ensures { result ≡ at_next_copy answer }
{
    match answer {
        Answer::CopyOut => Next::At(Place::Out),
        _ => last_rows(answer),
    }
}

fn last_rows(answer: Answer) -> Next
    ensures { result ≡ at_last_rows answer }
{
    match answer {
        Answer::RowDescription => Next::At(Place::Rows),
        Answer::CommandComplete => Next::At(Place::Over),
        _ => Next::Wrong,
    }
}

// The server's data of a COPY in both directions: where more of them lead, and where their end does.
fn copied_both(more: Place, end: Place, answer: Answer) -> Next
    ensures { result ≡ at_data_both more end answer }
{
    match answer {
        Answer::CopyData => Next::At(more),
        Answer::CopyDone => Next::At(end),
        _ => Next::Wrong,
    }
}

fn complete(next: Next, answer: Answer) -> Next
    ensures { result ≡ at_complete next answer }
{
    match answer {
        Answer::CommandComplete => next,
        _ => Next::Wrong,
    }
}

fn ready(answer: Answer) -> Next
    ensures { result ≡ at_ready answer }
{
    match answer {
        Answer::Ready => Next::Done,
        _ => Next::Wrong,
    }
}

fn next_statement(answer: Answer) -> Next
    ensures { result ≡ at_next_statement answer }
{
    match answer {
        Answer::Ready => Next::Done,
        _ => statement(answer),
    }
}

fn within_query(place: Place, answer: Answer) -> Next
    ensures { result ≡ in_query place answer }
{
    match place {
        Place::Start => statement(answer),
        Place::Over => next_statement(answer),
        Place::Rows => row_sets(answer),
        Place::Out => copied(answer),
        Place::OutDone => next_copy(answer),
        Place::Given => complete(Next::At(Place::Over), answer),
        Place::Both => copied_both(Place::Both, Place::BothIn, answer),
        Place::BothOut => copied_both(Place::BothOut, Place::BothDone, answer),
        Place::BothDone => last_rows(answer),
        Place::Failed => ready(answer),
        _ => Next::Wrong,
    }
}

fn portal(answer: Answer) -> Next
    ensures { result ≡ at_portal answer }
{
    match answer {
        Answer::DataRow => Next::At(Place::Rows),
        Answer::CommandComplete | Answer::PortalSuspended | Answer::EmptyQuery => Next::Done,
        Answer::CopyOut => Next::At(Place::Out),
        Answer::CopyIn => Next::At(Place::Asked),
        _ => Next::Wrong,
    }
}

fn portal_rows(answer: Answer) -> Next
    ensures { result ≡ at_portal_rows answer }
{
    match answer {
        Answer::DataRow => Next::At(Place::Rows),
        Answer::CommandComplete | Answer::PortalSuspended => Next::Done,
        _ => Next::Wrong,
    }
}

fn within_execute(place: Place, answer: Answer) -> Next
    ensures { result ≡ in_execute place answer }
{
    match place {
        Place::Start => portal(answer),
        Place::Rows => portal_rows(answer),
        Place::Out => copied(answer),
        Place::OutDone | Place::Given => complete(Next::Done, answer),
        _ => Next::Wrong,
    }
}

fn within_call(place: Place, answer: Answer) -> Next
    ensures { result ≡ in_call place answer }
{
    match (place, answer) {
        (Place::Start, Answer::FunctionResult) => Next::At(Place::Value),
        (Place::Value | Place::Failed, Answer::Ready) => Next::Done,
        _ => Next::Wrong,
    }
}

fn within_sync(place: Place, answer: Answer) -> Next
    ensures { result ≡ in_sync place answer }
{
    match place {
        Place::Start | Place::Failed => ready(answer),
        _ => Next::Wrong,
    }
}

fn description(answer: Answer) -> Next
    ensures { result ≡ at_description answer }
{
    match answer {
        Answer::RowDescription | Answer::NoData => Next::Done,
        _ => Next::Wrong,
    }
}

fn within_description(place: Place, answer: Answer) -> Next
    ensures { result ≡ in_statement place answer }
{
    match (place, answer) {
        (Place::Start, Answer::ParameterDescription) => Next::At(Place::Parameters),
        (Place::Parameters, _) => description(answer),
        _ => Next::Wrong,
    }
}

/// Where an answer to a request leads, where its answer has come to a place. An error is none of these.
pub fn step(request: Request, place: Place, answer: Answer) -> Next
    ensures { result ≡ next_of request place answer }
{
    match (request, place, answer) {
        (Request::Query, _, _) => within_query(place, answer),
        (Request::Call, _, _) => within_call(place, answer),
        (Request::Execute, _, _) => within_execute(place, answer),
        (Request::Sync, _, _) => within_sync(place, answer),
        (Request::DescribeStatement, _, _) => within_description(place, answer),
        (Request::DescribePortal, Place::Start, _) => description(answer),
        (Request::Parse, Place::Start, Answer::ParseComplete) => Next::Done,
        (Request::Bind, Place::Start, Answer::BindComplete) => Next::Done,
        (Request::Close, Place::Start, Answer::CloseComplete) => Next::Done,
        _ => Next::Wrong,
    }
}

/// Whether a request is answered up to a ReadyForQuery, whatever fails.
pub fn ends_ready(request: Request) -> bool
    ensures { result ≡ ends_ready request }
{
    match request {
        Request::Query | Request::Call | Request::Sync => true,
        _ => false,
    }
}

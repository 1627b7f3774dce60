//! Places, stages, modes and the like as numbers, for a flow of fixed size. A number that stands for none is read as the last.

ghost use Rattle.std.specs.Prelude.{◌≡◌, Some};
ghost use Rattle.pg_flow.specs.Codes.{stage_as, place_as, request_as, asked, mode_number};
ghost use Rattle.pg_flow.specs.TransactionStatus.{status_as};

use crate::mode::Mode;
use crate::place::Place;
use crate::request::Request;
use crate::stage::Stage;
use crate::transaction_status::TransactionStatus;

/// The number of a stage.
pub fn number_of_stage(stage: Stage) -> u8
    ensures { stage_as result ≡ stage }
{
    match stage {
        Stage::Opening(false, false, false) => 0,
        Stage::Opening(true, false, false) => 1,
        Stage::Opening(false, true, false) => 2,
        Stage::Opening(true, true, false) => 3,
        Stage::Opening(false, false, true) => 4,
        Stage::Opening(true, false, true) => 5,
        Stage::Opening(false, true, true) => 6,
        Stage::Opening(true, true, true) => 7,
        Stage::SslRequested(false) => 8,
        Stage::SslRequested(true) => 9,
        Stage::GssRequested(false) => 10,
        Stage::GssRequested(true) => 11,
        Stage::Cancelled => 12,
        Stage::Started => 13,
        Stage::Negotiated => 14,
        Stage::PasswordAsked => 15,
        Stage::PasswordGiven => 16,
        Stage::OutsideAsked => 17,
        Stage::GssAsked => 18,
        Stage::GssGiven => 19,
        Stage::GssContinued => 20,
        Stage::SaslOffered => 21,
        Stage::ScramBegun => 22,
        Stage::ScramChallenged => 23,
        Stage::ScramProved => 24,
        Stage::SaslGiven => 25,
        Stage::SaslChallenged => 26,
        Stage::Verified => 27,
        Stage::Accepted(false) => 28,
        Stage::Accepted(true) => 29,
        Stage::Ready => 30,
        Stage::Ended => 31,
    }
}

/// The stage of a number.
pub fn stage_of(number: u8) -> Stage
    ensures { result ≡ stage_as number }
{
    match number {
        0 => Stage::Opening(false, false, false),
        1 => Stage::Opening(true, false, false),
        2 => Stage::Opening(false, true, false),
        3 => Stage::Opening(true, true, false),
        4 => Stage::Opening(false, false, true),
        5 => Stage::Opening(true, false, true),
        6 => Stage::Opening(false, true, true),
        7 => Stage::Opening(true, true, true),
        8 => Stage::SslRequested(false),
        9 => Stage::SslRequested(true),
        10 => Stage::GssRequested(false),
        11 => Stage::GssRequested(true),
        12 => Stage::Cancelled,
        13 => Stage::Started,
        14 => Stage::Negotiated,
        15 => Stage::PasswordAsked,
        16 => Stage::PasswordGiven,
        17 => Stage::OutsideAsked,
        18 => Stage::GssAsked,
        19 => Stage::GssGiven,
        20 => Stage::GssContinued,
        21 => Stage::SaslOffered,
        22 => Stage::ScramBegun,
        23 => Stage::ScramChallenged,
        24 => Stage::ScramProved,
        25 => Stage::SaslGiven,
        26 => Stage::SaslChallenged,
        27 => Stage::Verified,
        28 => Stage::Accepted(false),
        29 => Stage::Accepted(true),
        30 => Stage::Ready,
        _ => Stage::Ended,
    }
}

/// The number of a place.
pub fn number_of_place(place: Place) -> u8
    ensures { place_as result ≡ place }
{
    match place {
        Place::Start => 0,
        Place::Over => 1,
        Place::Rows => 2,
        Place::Out => 3,
        Place::OutDone => 4,
        Place::Asked => 5,
        Place::Given => 6,
        Place::Withheld => 7,
        Place::Parameters => 8,
        Place::Value => 9,
        Place::Failed => 10,
        Place::Skipping => 11,
        Place::Both => 12,
        Place::BothIn => 13,
        Place::BothOut => 14,
        Place::BothDone => 15,
    }
}

/// The place of a number.
pub fn place_of(number: u8) -> Place
    ensures { result ≡ place_as number }
{
    match number {
        0 => Place::Start,
        1 => Place::Over,
        2 => Place::Rows,
        3 => Place::Out,
        4 => Place::OutDone,
        5 => Place::Asked,
        6 => Place::Given,
        7 => Place::Withheld,
        8 => Place::Parameters,
        9 => Place::Value,
        10 => Place::Failed,
        11 => Place::Skipping,
        12 => Place::Both,
        13 => Place::BothIn,
        14 => Place::BothOut,
        _ => Place::BothDone,
    }
}

/// The number of a request, which is not 0.
pub fn number_of_request(request: Request) -> u8
    ensures request { request_as result ≡ request }
    ensures asked { asked result ≡ Some request }
{
    match request {
        Request::Query => 1,
        Request::Call => 2,
        Request::Parse => 3,
        Request::Bind => 4,
        Request::DescribeStatement => 5,
        Request::DescribePortal => 6,
        Request::Execute => 7,
        Request::Close => 8,
        Request::Sync => 9,
    }
}

/// The number of a request, or 0 where there is none.
pub fn number_of_asked(request: Option<Request>) -> u8
    ensures { asked result ≡ request }
{
    match request {
        None => 0,
        Some(request) => number_of_request(request),
    }
}

/// The request of a number.
pub fn request_of(number: u8) -> Request
    ensures { result ≡ request_as number }
{
    match number {
        1 => Request::Query,
        2 => Request::Call,
        3 => Request::Parse,
        4 => Request::Bind,
        5 => Request::DescribeStatement,
        6 => Request::DescribePortal,
        7 => Request::Execute,
        8 => Request::Close,
        _ => Request::Sync,
    }
}

/// The request of a number; none of 0.
pub fn asked_of(number: u8) -> Option<Request>
    ensures { result ≡ asked number }
{
    if number == 0 {
        return None;
    }
    Some(request_of(number))
}

/// The letter of a status, or 0 where there is none.
pub fn letter_of(status: Option<TransactionStatus>) -> u8
    ensures { status_as result ≡ status }
{
    match status {
        None => 0,
        Some(TransactionStatus::Idle) => b'I',
        Some(TransactionStatus::Transaction) => b'T',
        Some(TransactionStatus::Error) => b'E',
    }
}

/// The status of a letter; none of a letter that has none.
pub fn status_of(letter: u8) -> Option<TransactionStatus>
    ensures { result ≡ status_as letter }
{
    match letter {
        b'I' => Some(TransactionStatus::Idle),
        b'T' => Some(TransactionStatus::Transaction),
        b'E' => Some(TransactionStatus::Error),
        _ => None,
    }
}

/// The number of a mode.
pub fn number_of_mode(mode: Mode) -> u8
    ensures { result ≡ mode_number mode }
{
    match mode {
        Mode::Login => 0,
        Mode::Idle => 1,
        Mode::Busy => 2,
        Mode::CopyIn => 3,
        Mode::CopyOut => 4,
        Mode::CopyBoth => 5,
        Mode::Skipping => 6,
        Mode::Ended => 7,
    }
}

//! What holds of every session.

ghost use Rattle.std.specs.Prelude.{◌≡◌, ◌≢◌, ◌++◌, List, true, false, Some};
ghost use Rattle.pg_flow.specs.declared.begin_answer.AuthenticationStep.TheVariants as auth;
ghost use Rattle.pg_flow.specs.declared.begin_answer.BeginAnswer.TheVariants as begun;
ghost use Rattle.pg_flow.specs.declared.stage.Stage.{Stage};
ghost use Rattle.pg_flow.specs.declared.stage.Stage.TheVariants as stages;
ghost use Rattle.pg_flow.specs.declared.transaction_status.TransactionStatus.{TransactionStatus};
ghost use Rattle.pg_flow.specs.Stage.{begin_heard};
ghost use Rattle.pg_flow.specs.Logins.{Turn, Begun, logins, at_opening, begin_run, is_accepted, HasStep};
ghost use Rattle.pg_flow.specs.declared.answer.Answer.{Answer};
ghost use Rattle.pg_flow.specs.declared.request.Request.{Request};
ghost use Rattle.pg_flow.specs.Answered.{Answered};
ghost use Rattle.pg_flow.specs.Sessions.{Event, IsTaken, IsTakenWhole, IsTakenInTurn, requests, answers_in, all_said, all_heard, AsksForNone};
ghost use Rattle.pg_flow.specs.World.{Choice, Disagreed, schedule, at_first};

/// Whatever a client says and hears, and in whatever order, while it says no Sync before the end of a COPY's data: where its
/// flow takes all of it, and nothing is left to be answered, what it heard are the answers that the grammar allows to what
/// it said, each to one request and in order.
pub fn what_is_taken_is_answered()
    ensures { (es : List Event) → IsTaken es → Answered (requests es) false (answers_in es) }
{}

/// The answers that the grammar allows are taken: here all requests are said first, and no COPY takes data of the client.
pub fn what_is_allowed_is_taken()
    ensures { (said : List Request) (heard : List Answer) → AsksForNone heard
        → Answered said false heard → IsTakenWhole (all_said said ++ all_heard heard) }
{}

/// All that the grammar allows is taken, data of a COPY too: in some session the client says this, hears that, and its flow takes
/// it, where each request is said once the one before is answered, and data are ended as soon as they are asked for.
pub fn what_is_allowed_is_taken_in_turn()
    ensures { (said : List Request) (heard : List Answer) → Answered said false heard
        → IsTakenInTurn said heard }
{}

/// Over every schedule, with any number of messages on their way in both directions: what the flow of a server allowed, that
/// of the client takes, and as an answer to the same request, or to a group of Syncs with that among them; unless it is a
/// CopyInResponse or a CopyBothResponse, and the client had said more behind the COPY than Syncs, or than nothing where data go
/// both ways.
pub fn client_and_server_agree()
    ensures { (choices : List Choice) → (schedule choices at_first).outcome ≢ Disagreed }
{}

/// Before the login is over too, over every schedule: what the flow of a server allowed, that of the client takes.
pub fn client_and_server_agree_on_logins()
    ensures { (turns : List Turn) → (logins turns at_opening).is_refused ≡ false }
{}

/// A ReadyForQuery is refused before AuthenticationOk, whatever came before.
pub fn ready_needs_ok()
    ensures { (es : List Begun) (t u : Stage) (status : TransactionStatus)
        → begin_run es (Some (stages.Opening false false false)) ≡ Some t
        → begin_heard t (begun.Ready status) ≡ Some u → HasStep auth.Ok es }
{}

/// Once the client has begun SCRAM, the server's login is taken for accepted only after its verifier.
pub fn scram_needs_a_verifier()
    ensures { (es : List Begun) (t : Stage) → begin_run es (Some stages.ScramBegun) ≡ Some t
        → is_accepted t ≡ true → HasStep auth.SaslFinal es }
{}

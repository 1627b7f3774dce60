//! Laws of this crate: what holds of messages beyond single calls.
//!
//! A function without a body states a law, and is there to be proved and not to be called.

ghost use Rattle.std.specs.Prelude.{◌≡◌, ◌≤◌, ◌<◌, ◌+◌, ◌^◌, ℕ, List, length};
ghost use Rattle.std.specs.List.{All};
ghost use Rattle.pg_format.specs.Format.{AreBytes};
ghost use Rattle.pg_format.specs.Messages.{Cancel};
ghost use Rattle.pg_send.specs.Bind.{BindFields};
ghost use Rattle.pg_send.specs.CancelRequest.{cancel_request_body, length_field, IfSent, CancelIsReadBack};
ghost use Rattle.pg_send.specs.Execute.{ExecuteFields, execute_value};
ghost use Rattle.pg_send.specs.Message.{Message, body, line, Meant, IfReadable, HaveOneText, AreOneIfAlike, IsWrittenOfPage, IsReadWhereMeant, HasTextOfRaw, Close, Describe, Execute, Parse, RawClose, RawDescribe, RawExecute, RawParse};
ghost use Rattle.pg_send.specs.Parse.{ParseFields, parse_value};
ghost use Rattle.pg_send.specs.Password.{power_over};
ghost use Rattle.pg_send.specs.RawStartup.{raw_startup_body, IfOpened, StartupIsOfPage, StartupIsReadBack};
ghost use Rattle.pg_send.specs.Startup.{StartupFields, startup_body, all_settings, IsReadable, StartupCanRoundTrip};
ghost use Rattle.pg_send.specs.Target.{Target, target_value};

/// Two messages of one kind with one frame are one message, where both are within the limits, have
/// their numbers in range and can make the round trip.
#[tactic(auto, using(crate::proofs::MessageLemmas::one_of_kind))]
pub fn frames_are_distinct()
    ensures { (m n : Message) → IfReadable m (IfReadable n (AreOneIfAlike m n)) }
{}

/// The page means one value by a message: the body is what is written of it, and a reader takes bytes apart
/// into the message exactly where they mean it.
#[tactic(auto, using(crate::proofs::MessageLemmas::one, crate::proofs::MessageLemmas::written, crate::proofs::MessageLemmas::read))]
pub fn messages_are_of_the_page()
    ensures one { (m : Message) (v w : (line m).Value) → Meant m v → Meant m w → v ≡ w }
    ensures written { (m : Message) → IfReadable m (AreBytes (body m) → IsWrittenOfPage m) }
    ensures read { (m : Message) → IsReadWhereMeant m }
{}

/// A message that names statements and portals by number has the bytes of the one with their names.
pub fn numbers_are_names()
    ensures parse { (p : ParseFields) → HaveOneText (Parse p) (RawParse (parse_value p)) }
    ensures bind { (b : BindFields) → HasTextOfRaw b }
    ensures describe { (t : Target) → HaveOneText (Describe t) (RawDescribe (target_value t)) }
    ensures execute { (e : ExecuteFields) → HaveOneText (Execute e) (RawExecute (execute_value e)) }
    ensures close { (t : Target) → HaveOneText (Close t) (RawClose (target_value t)) }
{}

/// The length of a cancel request is that of its body and its own four bytes; and a server reads one with a
/// key of a length that keys have as itself, and as no other.
pub fn cancel_requests_are_read_back()
    ensures length { (c : Cancel) → length_field c ≡ length (cancel_request_body c) + 4 }
    ensures read { (cancel : Cancel) → IfSent cancel (CancelIsReadBack cancel) }
{}

/// The opening of a session is what the page writes of its version and its settings, and a server reads them,
/// and nothing else, where it gets the settings back. A Startup is one by the minor version 0, whose settings
/// begin with the user and the database.
pub fn startups_are_read_back()
    ensures written { (m : ℕ) (s : List (List ℕ × List ℕ)) → m < 2 ^ 16 → StartupIsOfPage m s }
    ensures read { (m : ℕ) (s : List (List ℕ × List ℕ)) → IfOpened m s (StartupIsReadBack m s) }
    ensures named { (s : StartupFields) → startup_body s ≡ raw_startup_body 0 (all_settings s) }
    ensures readable { (s : StartupFields) → StartupCanRoundTrip s → All IsReadable (all_settings s) }
{}

/// The room that is reserved for a password in clear is the least power of two that holds it, so
/// that passwords of many lengths have one.
pub fn room_for_a_password_is_the_least_power()
    ensures power { (n : ℕ) → n ≤ 2 ^ 63 → (k : ℕ) × (power_over n ≡ 2 ^ k) × (n ≤ 2 ^ k) }
    ensures least { (k n : ℕ) → k < 64 → n ≤ 2 ^ k → power_over n ≤ 2 ^ k }
{}

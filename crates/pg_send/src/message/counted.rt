//! Lists of codes and of types, each as a part, after its count.

ghost use Rattle.std.specs.Prelude.{◌≡◌, ℕ, ◌^◌, ◌+◌, ◌<◌, ◌≤◌, ◌++◌, All, Some, None, length, map, nat_le, if◌then◌else◌};
ghost use Rattle.pg_base.specs.declared.error.ProtocolFault.{ProtocolFault};
ghost use Rattle.pg_base.specs.Numbers.{max_count};
ghost use Rattle.pg_send.specs.Counted.{codes_of};
ghost use Rattle.pg_base.specs.Sink.{HasRoom};

use pg_base::ProtocolFault;
use pg_base::io::part::Part;
use pg_base::io::{Oid, PgValueFormat, Sink};

// The most formats or types that a message can count. A count has two bytes, and is unsigned.
const MAX_COUNT: usize = u16::MAX as usize;

/// The fault of a list that is too long to be counted.
pub fn too_many(count: usize, fault: ProtocolFault) -> Option<ProtocolFault>
    ensures { result ≡ (if nat_le count max_count then None else Some fault) }
{
    if count > MAX_COUNT {
        return Some(fault);
    }
    None
}

/// What a list of formats is of: the fault of one that is too long.
pub trait Limit: Copy {
    ghost fault: { ℕ → ProtocolFault };

    fn fault(&self, count: usize) -> ProtocolFault
        ensures { result ≡ fault count };
}

/// The formats of parameters.
#[derive(Clone, Copy)]
pub struct ParamFormats;

impl Limit for ParamFormats {
    ghost use Rattle.pg_base.specs.declared.error.ProtocolFault.TheVariants.{TooManyParamFormats};

    ghost fault = { TooManyParamFormats };

    #[inline(always)]
    fn fault(&self, count: usize) -> ProtocolFault {
        ProtocolFault::TooManyParamFormats(count)
    }
}

/// The formats of results.
#[derive(Clone, Copy)]
pub struct ResultFormats;

impl Limit for ResultFormats {
    ghost use Rattle.pg_base.specs.declared.error.ProtocolFault.TheVariants.{TooManyResultFormats};

    ghost fault = { TooManyResultFormats };

    #[inline(always)]
    fn fault(&self, count: usize) -> ProtocolFault {
        ProtocolFault::TooManyResultFormats(count)
    }
}

/// The format of a value, as its code.
pub trait Code: Copy {
    /// What its codes are below.
    ghost limit: { ℕ };

    ghost code: { Self → ℕ };

    fn code(&self) -> u16
        ensures code { result ≡ code self.now }
        ensures small { code self.now < limit };
}

impl Code for PgValueFormat {
    ghost use Rattle.pg_base.specs.Format.{format_code};

    ghost limit = { 2 };

    ghost code = { format_code };

    #[inline(always)]
    fn code(&self) -> u16 {
        *self as u16
    }
}

impl Code for u16 {
    ghost limit = { 2 ^ 16 };

    ghost code = { λ code. code };

    #[inline(always)]
    fn code(&self) -> u16 {
        *self
    }
}

/// As C passes it: 0 is text, and all others are binary.
impl Code for u8 {
    ghost use Rattle.pg_send.specs.Counted.{format_of};

    ghost limit = { 2 };

    ghost code = { format_of };

    #[inline(always)]
    fn code(&self) -> u16 {
        if *self == 0 { 0 } else { 1 }
    }
}

/// Codes of formats, after their count. More than 65535 are refused.
#[derive(Clone, Copy)]
pub struct Codes<'a, L, C>(pub L, pub &'a [C]);

impl<L: Limit, C: Code> Part for Codes<'_, L, C> {
    ghost use Rattle.std.specs.Prelude.{map};
    ghost use Rattle.pg_send.specs.Counted.{codes};

    ghost part = { λ it. codes L.fault C.limit (map C.code it.1.now) };

    #[inline(always)]
    fn len(&self) -> usize {
        self.1.len().saturating_mul(2).saturating_add(2)
    }

    #[inline(always)]
    fn fault(&self) -> Option<ProtocolFault> {
        let count = self.1.len();
        too_many(count, self.0.fault(count))
    }

    // Mostly one is that of all.
    #[inline(always)]
    fn put<S: Sink>(&self, sink: &mut S) {
        if let [code] = self.1 {
            sink.put_u16(1);
            sink.put_u16(code.code());
        } else {
            put_codes(self.1, sink);
        }
    }
}

// Adds codes after their count, in room that is there.
#[inline(always)]
fn put_codes<C: Code, S: Sink>(codes: &[C], sink: &mut S)
    requires count { length codes.now ≤ max_count }
    requires room { HasRoom (S.capacity sink.old) (S.written sink.old) (codes_of C.code codes.now) }
    ensures written { S.written sink.new ≡ S.written sink.old ++ codes_of C.code codes.now }
    ensures capacity { S.capacity sink.old ≤ S.capacity sink.new }
    ensures loan { S.loan sink.new ≡ S.loan sink.old }
    ensures range { All (λ n. n < C.limit) (map C.code codes.now) }
{
    sink.put_u16(codes.len() as u16);
    for code in codes {
        sink.put_u16(code.code());
    }
}

/// The number of a type.
pub trait TypeNumber: Copy {
    ghost number: { Self → ℕ };

    fn number(&self) -> u32
        ensures { result ≡ number self.now };
}

impl TypeNumber for Oid {
    ghost number = { λ oid. oid.0 };

    #[inline(always)]
    fn number(&self) -> u32 {
        self.0
    }
}

impl TypeNumber for u32 {
    ghost number = { λ number. number };

    #[inline(always)]
    fn number(&self) -> u32 {
        *self
    }
}

/// The numbers of the types of parameters, after their count. More than 65535 are refused with
/// `TooManyParamTypes`.
#[derive(Clone, Copy)]
pub struct Types<'a, T>(pub &'a [T]);

impl<T: TypeNumber> Part for Types<'_, T> {
    ghost use Rattle.std.specs.Prelude.{map};
    ghost use Rattle.pg_send.specs.Counted.{types};

    ghost part = { λ it. types (map T.number it.0.now) };

    #[inline(always)]
    fn len(&self) -> usize {
        self.0.len().saturating_mul(4).saturating_add(2)
    }

    #[inline(always)]
    fn fault(&self) -> Option<ProtocolFault> {
        let count = self.0.len();
        too_many(count, ProtocolFault::TooManyParamTypes(count))
    }

    #[inline(always)]
    fn put<S: Sink>(&self, sink: &mut S) {
        sink.put_u16(self.0.len() as u16);
        for number in self.0 {
            sink.put_u32(number.number());
        }
    }
}

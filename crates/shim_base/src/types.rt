// The types of variables, and what storing a number keeps of it.
ghost use Rattle.std.specs.Prelude.{◌≡◌, ◌≢◌, ◌<◌, ◌≤◌, ◌+◌, ◌^◌, pos, ◌+ℤ◌, ◌-ℤ◌};
ghost use Rattle.std.specs.Int.{int_rem_euclid};
ghost use Rattle.shim_base.specs.Value.{stored, FitsType, DiffersByMultiple};

/// The type of a variable; `int` is `Int32`.
#[derive(Clone, Copy, Debug, PartialEq, Eq)]
pub enum Ty {
    Bool,
    Int8,
    Int16,
    Int32,
    Uint8,
    Uint16,
    Uint32,
    /// Programs of version 2 alone have this type.
    Int64,
}

/// What a variable of the type keeps of the number: the number modulo 2 to the type's width, in the
/// type's range; of `Bool`, 1 for every number but 0.
pub fn store(ty: Ty, v: i64) -> i64
    ensures value { result ≡ stored ty v }
    ensures fits { FitsType ty result }
    ensures modulo { ty ≢ Ty.Bool → DiffersByMultiple ty v result }
{
    match ty {
        Ty::Bool => i64::from(v != 0),
        Ty::Int8 => signed(v, 128),
        Ty::Int16 => signed(v, 32768),
        Ty::Int32 => signed(v, 2147483648),
        Ty::Uint8 => v.rem_euclid(256),
        Ty::Uint16 => v.rem_euclid(65536),
        Ty::Uint32 => v.rem_euclid(4294967296),
        Ty::Int64 => v,
    }
}

// The number from `-half` to `half - 1` that differs from v by a multiple of twice the half.
fn signed(v: i64, half: u32) -> i64
    requires positive { 0 < half }
    requires at_most { half ≤ 2 ^ 31 }
    ensures { result ≡ int_rem_euclid (v +ℤ pos half) (pos (half + half)) -ℤ pos half }
{
    let half = i64::from(half);
    let rest = v.rem_euclid(half + half);
    if rest < half {
        rest
    } else {
        rest - half - half
    }
}

// How a number of a variable's type stands in bytes, the lowest byte first.
ghost use Rattle.std.specs.Prelude.{◌≡◌, ◌+◌, ◌≤◌, ◌++◌, drop, length, take};
ghost use Rattle.trick_lang.specs.Wrap.{IsOf};
ghost use Rattle.trick_memory.specs.Packed.{packed, unpacked, width};

use trick_lang::Scalar;

/// How many bytes a number of a type takes, from 1 to 8.
pub(crate) fn width(scalar: Scalar) -> usize
    ensures { result ≡ width scalar }
{
    match scalar {
        Scalar::Bool | Scalar::Char | Scalar::UChar => 1,
        Scalar::Short | Scalar::UShort => 2,
        Scalar::Int | Scalar::UInt => 4,
        Scalar::Long => 8,
    }
}

/// The number of a type that stands in bytes from this place on.
pub(crate) fn unpack_at(bytes: &[u8], start: usize, scalar: Scalar) -> i64
    requires { start + width scalar ≤ length bytes.now }
    ensures { result ≡ unpacked scalar (drop start bytes.now) }
{
    unpack(&bytes[start..], scalar)
}

// The number of a type that stands at the front of bytes.
fn unpack(bytes: &[u8], scalar: Scalar) -> i64
    requires { width scalar ≤ length bytes.now }
    ensures { result ≡ unpacked scalar bytes.now }
{
    match scalar {
        Scalar::Bool | Scalar::UChar => i64::from(bytes[0]),
        Scalar::Char => i64::from(i8::from_le_bytes([bytes[0]])),
        Scalar::Short => i64::from(i16::from_le_bytes([bytes[0], bytes[1]])),
        Scalar::UShort => i64::from(u16::from_le_bytes([bytes[0], bytes[1]])),
        Scalar::Int => i64::from(i32::from_le_bytes([bytes[0], bytes[1], bytes[2], bytes[3]])),
        Scalar::UInt => i64::from(u32::from_le_bytes([bytes[0], bytes[1], bytes[2], bytes[3]])),
        Scalar::Long => i64::from_le_bytes([
            bytes[0], bytes[1], bytes[2], bytes[3], bytes[4], bytes[5], bytes[6], bytes[7],
        ]),
    }
}

/// Lays a number of a type in bytes from this place on. All others stay.
pub(crate) fn pack_at(bytes: &mut [u8], start: usize, scalar: Scalar, number: i64)
    requires room { start + width scalar ≤ length bytes.old }
    requires range { IsOf scalar number }
    ensures { bytes.new
        ≡ take start bytes.old ++ (packed scalar number ++ drop (width scalar) (drop start bytes.old)) }
{
    pack(&mut bytes[start..], scalar, number)
}

// Lays a number of a type at the front of bytes. Those after it stay.
fn pack(bytes: &mut [u8], scalar: Scalar, number: i64)
    requires room { width scalar ≤ length bytes.old }
    requires range { IsOf scalar number }
    ensures { bytes.new ≡ packed scalar number ++ drop (width scalar) bytes.old }
{
    match scalar {
        Scalar::Bool | Scalar::UChar => bytes[0] = number as u8,
        Scalar::Char => bytes[0] = (number as i8).cast_unsigned(),
        Scalar::Short => bytes[..2].copy_from_slice(&(number as i16).to_le_bytes()),
        Scalar::UShort => bytes[..2].copy_from_slice(&(number as u16).to_le_bytes()),
        Scalar::Int => bytes[..4].copy_from_slice(&(number as i32).to_le_bytes()),
        Scalar::UInt => bytes[..4].copy_from_slice(&(number as u32).to_le_bytes()),
        Scalar::Long => bytes[..8].copy_from_slice(&number.to_le_bytes()),
    }
}

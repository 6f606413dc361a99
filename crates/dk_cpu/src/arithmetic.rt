//! What an instruction computes from the registers.
ghost use Rattle.std.specs.Prelude.{◌≡◌, ◌+◌, ◌-◌, ◌*◌, ◌/◌, ◌%◌, ◌<◌, ◌^◌, nat_lt, if◌then◌else◌, bit_and, bit_or, bit_xor};
ghost use Rattle.dk_cpu.specs.Machine as machine;

use crate::Context;

/// The value of a register.
pub fn register(context: &Context, a: u8) -> u32
    requires { a < 8 }
    ensures { result ≡ machine.reg context.now a }
{
    context.regs[a as usize]
}

/// The sum of two registers, modulo 2^32.
pub fn sum(context: &Context, b: u8, c: u8) -> u32
    requires first { b < 8 }
    requires second { c < 8 }
    ensures { result ≡ (machine.reg context.now b + machine.reg context.now c) % machine.word }
{
    register(context, b).wrapping_add(register(context, c))
}

/// The difference of two registers, modulo 2^32.
pub fn difference(context: &Context, b: u8, c: u8) -> u32
    requires first { b < 8 }
    requires second { c < 8 }
    ensures { result ≡ (machine.reg context.now b + (machine.word - machine.reg context.now c)) % machine.word }
{
    register(context, b).wrapping_sub(register(context, c))
}

/// The product of two registers, modulo 2^32.
pub fn product(context: &Context, b: u8, c: u8) -> u32
    requires first { b < 8 }
    requires second { c < 8 }
    ensures { result ≡ (machine.reg context.now b * machine.reg context.now c) % machine.word }
{
    register(context, b).wrapping_mul(register(context, c))
}

/// The bits that both registers have.
pub fn common_bits(context: &Context, b: u8, c: u8) -> u32
    requires first { b < 8 }
    requires second { c < 8 }
    ensures { result ≡ bit_and (machine.reg context.now b) (machine.reg context.now c) }
{
    register(context, b) & register(context, c)
}

/// The bits that a register has of two.
pub fn joined_bits(context: &Context, b: u8, c: u8) -> u32
    requires first { b < 8 }
    requires second { c < 8 }
    ensures { result ≡ bit_or (machine.reg context.now b) (machine.reg context.now c) }
{
    register(context, b) | register(context, c)
}

/// The bits that one register has and the other hasn't.
pub fn differing_bits(context: &Context, b: u8, c: u8) -> u32
    requires first { b < 8 }
    requires second { c < 8 }
    ensures { result ≡ bit_xor (machine.reg context.now b) (machine.reg context.now c) }
{
    register(context, b) ^ register(context, c)
}

/// A register whose bits are moved up, by another one modulo 32.
pub fn shifted_left(context: &Context, b: u8, c: u8) -> u32
    requires first { b < 8 }
    requires second { c < 8 }
    ensures { result ≡ (machine.reg context.now b * 2 ^ (machine.reg context.now c % 32)) % machine.word }
{
    register(context, b).wrapping_shl(register(context, c))
}

/// A register whose bits are moved down, by another one modulo 32.
pub fn shifted_right(context: &Context, b: u8, c: u8) -> u32
    requires first { b < 8 }
    requires second { c < 8 }
    ensures { result ≡ machine.reg context.now b / 2 ^ (machine.reg context.now c % 32) }
{
    register(context, b).wrapping_shr(register(context, c))
}

/// 1 where the first register is below the second, else 0.
pub fn is_below(context: &Context, b: u8, c: u8) -> u32
    requires first { b < 8 }
    requires second { c < 8 }
    ensures { result ≡ (if nat_lt (machine.reg context.now b) (machine.reg context.now c) then 1 else 0) }
{
    u32::from(register(context, b) < register(context, c))
}

/// A register whose high half is set.
pub fn with_high_half(context: &Context, a: u8, imm: u16) -> u32
    requires { a < 8 }
    ensures { result ≡ imm * 65536 + machine.reg context.now a % 65536 }
{
    imm as u32 * 65536 + register(context, a) % 65536
}

/// An offset of two bytes, which counts down from 32768 on.
fn offset(imm: u16) -> u32
    ensures { result ≡ machine.offset imm }
{
    if imm < 32768 {
        imm as u32
    } else {
        imm as u32 + 0xffff_0000
    }
}

/// A register and an offset, modulo 2^32.
pub fn moved(context: &Context, a: u8, imm: u16) -> u32
    requires { a < 8 }
    ensures { result ≡ (machine.reg context.now a + machine.offset imm) % machine.word }
{
    register(context, a).wrapping_add(offset(imm))
}

/// The address of a memory word: a register and a number.
pub fn address(context: &Context, b: u8, n: u8) -> usize
    requires { b < 8 }
    ensures { result ≡ machine.reg context.now b + n }
{
    register(context, b) as usize + n as usize
}

//! GHASH (NIST SP 800-38D, section 6.4), multiplying by tables of the hash subkey.

ghost use Rattle.std.specs.Prelude.{◌≡◌, ◌+◌, ◌-◌, ◌*◌, ◌/◌, ◌<◌, ◌≤◌, ◌++◌, length, replicate, slice_index};
ghost use Rattle.aes_gcm.specs.Gcm.{block_count, element, hashed_from, next_power, padded_to_blocks, product, product_low};
ghost use Rattle.aes_gcm.specs.HashTables.{IsHashTable, times_power, windows};

/// What x^128 is modulo the field's polynomial: 1 + x + x^2 + x^7, whose first coefficient is the
/// highest bit.
const REDUCTION: u128 = 0xe1 << 120;

/// The highest sixteen bits of what the lowest four bits of an element become when it is multiplied
/// by x^4.
const REDUCED: [u16; 16] = [
    0x0000, 0x1c20, 0x3840, 0x2460, 0x7080, 0x6ca0, 0x48c0, 0x54e0, 0xe100, 0xfd20, 0xd940, 0xc560,
    0x9180, 0x8da0, 0xa9c0, 0xb5e0,
];

/// An element times x.
#[inline(always)]
fn times_x(element: u128) -> u128
    ensures { result ≡ next_power element }
{
    (element >> 1) ^ (element % 2 * REDUCTION)
}

/// An element times x^4.
#[inline(always)]
fn times_x4(element: u128) -> u128
    ensures { result ≡ times_power 4 element }
{
    (element >> 4) ^ ((REDUCED[(element % 16) as usize] as u128) << 112)
}

/// The product of four bits and an element.
fn times_four_bits(bits: u128, element: u128) -> u128
    requires { bits < 16 }
    ensures { result ≡ product_low 4 bits element }
{
    let second = times_x(element);
    let third = times_x(second);
    (bits >> 3) % 2 * element
        ^ (bits >> 2) % 2 * second
        ^ (bits >> 1) % 2 * third
        ^ bits % 2 * times_x(third)
}

/// The products that a key keeps of its hash subkey.
pub(crate) fn hash_tables(subkey: u128) -> [u128; 128]
    ensures tables { IsHashTable result }
    ensures subkey { slice_index result 8 ≡ subkey }
{
    let mut tables = [0; 128];
    let mut power = subkey;
    for i in 0..128usize {
        tables[i] = times_four_bits((i % 16) as u128, power);
        if i % 16 == 15 {
            power = times_x4(times_x4(times_x4(times_x4(power))));
        }
    }
    tables
}

/// The sum of the products of the lowest four bits of each of the eight windows of `a`.
#[inline(always)]
fn sum_of_windows(tables: &[u128; 128], a: u128) -> u128
    requires { IsHashTable tables.now }
    ensures { result ≡ windows 8 4 a (slice_index tables.now 8) }
{
    tables[((a >> 112) % 16) as usize]
        ^ tables[16 + ((a >> 96) % 16) as usize]
        ^ tables[32 + ((a >> 80) % 16) as usize]
        ^ tables[48 + ((a >> 64) % 16) as usize]
        ^ tables[64 + ((a >> 48) % 16) as usize]
        ^ tables[80 + ((a >> 32) % 16) as usize]
        ^ tables[96 + ((a >> 16) % 16) as usize]
        ^ tables[112 + (a % 16) as usize]
}

/// The product of an element and the hash subkey (SP 800-38D, section 6.3).
#[inline(always)]
fn multiply(tables: &[u128; 128], a: u128) -> u128
    requires { IsHashTable tables.now }
    ensures { result ≡ product a (slice_index tables.now 8) }
{
    let first = sum_of_windows(tables, a);
    let second = sum_of_windows(tables, a >> 4);
    let third = sum_of_windows(tables, a >> 8);
    let fourth = sum_of_windows(tables, a >> 12);
    times_x4(times_x4(times_x4(first) ^ second) ^ third) ^ fourth
}

/// The element of a block of at most sixteen octets that zeros complete.
#[inline(always)]
pub(crate) fn load(octets: &[u8]) -> u128
    requires { length octets.now ≤ 16 }
    ensures { result ≡ element (octets.now ++ replicate (16 - length octets.now) 0) }
{
    let mut block = [0; 16];
    block[..octets.len()].copy_from_slice(octets);
    u128::from_be_bytes(block)
}

/// Hashes the blocks of `octets`, the last of them completed by zeros, onto `before`.
pub(crate) fn hash_onto(tables: &[u128; 128], before: u128, octets: &[u8]) -> u128
    requires { IsHashTable tables.now }
    ensures { result ≡ hashed_from (slice_index tables.now 8) before (padded_to_blocks octets.now)
        (block_count (length octets.now)) }
{
    let mut sum = before;
    let whole = octets.len() / 16;
    for i in 0..whole {
        sum = multiply(tables, sum ^ load(&octets[16 * i..16 * i + 16]));
    }
    if 16 * whole == octets.len() {
        return sum;
    }
    multiply(tables, sum ^ load(&octets[16 * whole..octets.len()]))
}

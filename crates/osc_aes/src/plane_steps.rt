//! The steps of a round (FIPS 197, 5.1.2 to 5.1.4) on planes. ShiftRows takes no step here: after each round, row r of
//! the state is rotated right by r more columns, and `turned` counts these rotations modulo 4.

ghost use Rattle.std.specs.Prelude.{◌≡◌, ◌<◌, ℕ, bit_xor};
ghost use Rattle.std.specs.Int.{bit_at};
ghost use Rattle.osc_aes.specs.Field.{mul};
ghost use Rattle.osc_aes.specs.Views.{lane};
ghost use Rattle.osc_aes.specs.Lanes.{below};

/// Multiplies each column by the matrix whose first row is 02 03 01 01. A row becomes 02 times the sum of itself and the
/// row below, plus the three rows below. The planes are taken one by one, in an order of which LLVM makes few instructions.
#[inline(always)]
pub(crate) fn mix_columns(planes: [u32; 8], turned: usize) -> [u32; 8]
    requires { turned < 4 }
    ensures { (i : ℕ) → i < 32 → lane result i
        ≡ bit_xor (bit_xor (mul 2 (lane planes i)) (mul 3 (lane planes (below turned i))))
        (bit_xor (lane planes (below turned (below turned i))) (lane planes (below turned (below turned (below turned i))))) }
{
    let [p0, p1, p2, p3, p4, p5, p6, p7] = planes;
    let r3 = rows_below(p3, turned);
    let r7 = rows_below(p7, turned);
    let r0 = rows_below(p0, turned);
    let r1 = rows_below(p1, turned);
    let r2 = rows_below(p2, turned);
    let r5 = rows_below(p5, turned);
    let r4 = rows_below(p4, turned);
    let r6 = rows_below(p6, turned);
    let next = [
        r0.next, r1.next, r2.next, r3.next, r4.next, r5.next, r6.next, r7.next,
    ];
    let sum = [
        r0.sum, r1.sum, r2.sum, r3.sum, r4.sum, r5.sum, r6.sum, r7.sum,
    ];
    let far = [
        r0.far, r1.far, r2.far, r3.far, r4.far, r5.far, r6.far, r7.far,
    ];
    add_planes(add_planes(double_planes(sum), next), far)
}

/// What stands below the rows of one plane: the row below each, the sum of both, and the sum of the two rows below these.
#[derive(Clone, Copy)]
struct RowsBelow {
    next: u32,
    sum: u32,
    far: u32,
}

/// Returns what stands below the rows of one plane.
#[inline(always)]
fn rows_below(plane: u32, turned: usize) -> RowsBelow
    requires { turned < 4 }
    ensures next { (i : ℕ) → i < 32 → bit_at result.next i ≡ bit_at plane (below turned i) }
    ensures sum { result.sum ≡ bit_xor plane result.next }
    ensures far { (i : ℕ) → i < 32 → bit_at result.far i ≡ bit_at result.sum (below turned (below turned i)) }
{
    let next = turn_plane(plane, turned);
    let sum = plane ^ next;
    RowsBelow {
        next,
        sum,
        far: turn_plane_twice(sum, turned),
    }
}

/// Moves each row of one plane to the place of the row above it. A row has eight bits, and each of its columns has two. The bits that stay in
/// order and those that come around are each one rotation of the whole plane.
#[inline(always)]
fn turn_plane(plane: u32, turned: usize) -> u32
    requires { turned < 4 }
    ensures { (i : ℕ) → i < 32 → bit_at result i ≡ bit_at plane (below turned i) }
{
    match turned {
        0 => (plane >> 8) ^ (plane << 24),
        1 => {
            (((plane >> 10) ^ (plane << 22)) & 0x3f3f_3f3f)
                ^ (((plane >> 2) ^ (plane << 30)) & 0xc0c0_c0c0)
        }
        2 => {
            (((plane >> 12) ^ (plane << 20)) & 0x0f0f_0f0f)
                ^ (((plane >> 4) ^ (plane << 28)) & 0xf0f0_f0f0)
        }
        _ => {
            (((plane >> 14) ^ (plane << 18)) & 0x0303_0303)
                ^ (((plane >> 6) ^ (plane << 26)) & 0xfcfc_fcfc)
        }
    }
}

/// Moves each row of one plane to the place of the second row above it.
#[inline(always)]
fn turn_plane_twice(plane: u32, turned: usize) -> u32
    requires { turned < 4 }
    ensures { (i : ℕ) → i < 32 → bit_at result i ≡ bit_at plane (below turned (below turned i)) }
{
    if turned % 2 == 0 {
        (plane >> 16) ^ (plane << 16)
    } else {
        (((plane >> 20) ^ (plane << 12)) & 0x0f0f_0f0f)
            ^ (((plane >> 12) ^ (plane << 20)) & 0xf0f0_f0f0)
    }
}

/// Multiplies each lane by 02. A bit that leaves at the top comes back as the modulus, 1b.
#[inline(always)]
fn double_planes(planes: [u32; 8]) -> [u32; 8]
    ensures { (i : ℕ) → i < 32 → lane result i ≡ mul 2 (lane planes i) }
{
    let [p0, p1, p2, p3, p4, p5, p6, p7] = planes;
    [p7, p0 ^ p7, p1, p2 ^ p7, p3 ^ p7, p4, p5, p6]
}

/// Adds lane by lane: a state and a round key, or two states.
#[inline(always)]
pub(crate) fn add_planes(left: [u32; 8], right: [u32; 8]) -> [u32; 8]
    ensures { (i : ℕ) → i < 32 → lane result i ≡ bit_xor (lane left i) (lane right i) }
{
    let [l0, l1, l2, l3, l4, l5, l6, l7] = left;
    let [r0, r1, r2, r3, r4, r5, r6, r7] = right;
    [
        l0 ^ r0,
        l1 ^ r1,
        l2 ^ r2,
        l3 ^ r3,
        l4 ^ r4,
        l5 ^ r5,
        l6 ^ r6,
        l7 ^ r7,
    ]
}

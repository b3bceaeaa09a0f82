// The sixteen tests of opcodes $20 to $2F, each as its truth over N, Z, V and C.
ghost use Rattle.std.specs.Prelude.{◌≡◌};
ghost use Rattle.registers.specs.Flags.{flags_of};
ghost use Rattle.opcodes.specs.Conditions.{test_holds_of};

// Bit i of a word is the test's truth where N Z V C, bits 3 to 0 of the flags, are the number i.
#[rattlefmt::skip]
const TRUTH: [u16; 16] = [
    0xffff, // BRA
    0x0000, // BRN
    0x0505, // BHI
    0xfafa, // BLS
    0x5555, // BCC, BHS
    0xaaaa, // BCS, BLO
    0x0f0f, // BNE
    0xf0f0, // BEQ
    0x3333, // BVC
    0xcccc, // BVS
    0x00ff, // BPL
    0xff00, // BMI
    0xcc33, // BGE
    0x33cc, // BLT
    0x0c03, // BGT
    0xf3fc, // BLE
];

// Whether test k holds of the flags.
pub fn test_holds(k: u8, flags: u8) -> bool
    ensures { result ≡ test_holds_of k (flags_of flags) }
{
    let word = TRUTH[(k % 16) as usize];
    (word >> (flags % 16)) % 2 == 1
}

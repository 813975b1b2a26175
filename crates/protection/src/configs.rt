// The sixteen configuration bytes of the entries as the two words pmpcfg0 and pmpcfg2, the first byte lowest. The bytes are named or copied one by one, not by
// `copy_from_slice`: that compiles to a test of which way to copy, and to copies of whole registers around it.
ghost use Rattle.std.specs.Prelude.{◌≡◌, ◌≤◌, take, drop};
ghost use Rattle.std.proofs.lemmas.List.Edits.{sets};
ghost use Rattle.protection.specs.Configs.{packed, unpacked, configs_of};

// Two registers of the architecture, each with its own bytes by number: one function over the half would choose them by an index.
pub fn pmpcfg0(cfgs: [u8; 16]) -> u64
    ensures { result ≡ packed (take 8 cfgs) }
{
    u64::from_le_bytes([
        cfgs[0], cfgs[1], cfgs[2], cfgs[3], cfgs[4], cfgs[5], cfgs[6], cfgs[7],
    ])
}

pub fn pmpcfg2(cfgs: [u8; 16]) -> u64
    ensures { result ≡ packed (drop 8 cfgs) }
{
    u64::from_le_bytes([
        cfgs[8], cfgs[9], cfgs[10], cfgs[11], cfgs[12], cfgs[13], cfgs[14], cfgs[15],
    ])
}

// The bytes with eight of them replaced by those of a word.
fn unpack(given: [u8; 16], start: usize, word: u64) -> [u8; 16]
    requires { start ≤ 8 }
    ensures { result ≡ sets given start (unpacked 8 word) }
{
    let mut cfgs = given;
    for (i, byte) in word.to_le_bytes().iter().enumerate() {
        cfgs[start + i] = *byte;
    }
    cfgs
}

// The bytes of the two words.
pub fn configs_of(low: u64, high: u64) -> [u8; 16]
    ensures { result ≡ configs_of low high }
{
    unpack(unpack([0; 16], 0, low), 8, high)
}

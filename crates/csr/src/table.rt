// What of an access to a CSR depends on its address alone (02, [11]): a constant table with a number for each of the 4,096 addresses. csr/specs/Table says
// what a number means: 0 is no register, 3 one open to S and M, 7 to M, 9 read-only to all modes, 15 read-only to M.
//
// The numbers stay numbers, and become no enum: 02, [11] asks for the table in this form.
//
// A row has sixteen addresses and is named by the first; rows without a register are one, `ABSENT`. docs/DECISIONS.md says why in rows.
ghost use Rattle.std.specs.Prelude.{◌≡◌};
ghost use Rattle.csr.specs.Table.{accessibility};

const ROW_100: [u8; 16] = [3, 0, 0, 0, 3, 3, 3, 0, 0, 0, 3, 0, 0, 0, 0, 0];

const ROW_140: [u8; 16] = [3, 3, 3, 3, 3, 0, 0, 0, 0, 0, 0, 0, 0, 0, 0, 0];

const ROW_180: [u8; 16] = [3, 0, 0, 0, 0, 0, 0, 0, 0, 0, 0, 0, 0, 0, 0, 0];

const ROW_300: [u8; 16] = [7, 7, 7, 7, 7, 7, 7, 0, 0, 0, 7, 0, 0, 0, 0, 0];

const ROW_320: [u8; 16] = [7, 0, 0, 7, 7, 7, 7, 7, 7, 7, 7, 7, 7, 7, 7, 7];

const ROW_330: [u8; 16] = [7, 7, 7, 7, 7, 7, 7, 7, 7, 7, 7, 7, 7, 7, 7, 7];

const ROW_340: [u8; 16] = [7, 7, 7, 7, 7, 0, 0, 0, 0, 0, 0, 0, 0, 0, 0, 0];

const ROW_3A0: [u8; 16] = [7, 0, 7, 0, 0, 0, 0, 0, 0, 0, 0, 0, 0, 0, 0, 0];

const ROW_3B0: [u8; 16] = [7, 7, 7, 7, 7, 7, 7, 7, 7, 7, 7, 7, 7, 7, 7, 7];

const ROW_B00: [u8; 16] = [7, 0, 7, 7, 7, 7, 7, 7, 7, 7, 7, 7, 7, 7, 7, 7];

const ROW_B10: [u8; 16] = [7, 7, 7, 7, 7, 7, 7, 7, 7, 7, 7, 7, 7, 7, 7, 7];

const ROW_C00: [u8; 16] = [9, 0, 9, 9, 9, 9, 9, 9, 9, 9, 9, 9, 9, 9, 9, 9];

const ROW_C10: [u8; 16] = [9, 9, 9, 9, 9, 9, 9, 9, 9, 9, 9, 9, 9, 9, 9, 9];

const ROW_F10: [u8; 16] = [0, 15, 15, 15, 15, 15, 0, 0, 0, 0, 0, 0, 0, 0, 0, 0];

const ABSENT: [u8; 16] = [0; 16];

// The table's number for an address, and 0 for one past its end.
pub(crate) fn accessibility(address: u64) -> u8
    ensures { result ≡ accessibility address }
{
    let place = (address % 16) as usize;
    match address / 16 {
        0x10 => ROW_100[place],
        0x14 => ROW_140[place],
        0x18 => ROW_180[place],
        0x30 => ROW_300[place],
        0x32 => ROW_320[place],
        0x33 => ROW_330[place],
        0x34 => ROW_340[place],
        0x3A => ROW_3A0[place],
        0x3B => ROW_3B0[place],
        0xB0 => ROW_B00[place],
        0xB1 => ROW_B10[place],
        0xC0 => ROW_C00[place],
        0xC1 => ROW_C10[place],
        0xF1 => ROW_F10[place],
        _ => ABSENT[place],
    }
}

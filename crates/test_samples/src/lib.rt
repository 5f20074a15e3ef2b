// Files of which the examples speak, and how what is found in them is shown. For the programs above. Rests on refusals and the standard
// library.
#![tactic(auto)]

ghost use Rattle.std.specs.Prelude.{◌≡◌, length};

// Words and numbers.
pub mod shown;

// A DS2 file of zeros, but for its magic and what the block at 1536 announces.
pub fn ds2_file(first: u8, count: u8, byte: u8) -> [u8; 4096]
    ensures { length result ≡ 4096 }
{
    let mut file = [0u8; 4096];
    file[0] = first;
    file[1] = b'd';
    file[2] = b's';
    file[3] = b'2';
    file[1538] = count;
    file[1540] = byte;
    file
}

// A QP file of two blocks. The first starts at place 0.
pub fn two_blocks(count: u8, byte1: u8, next: u8) -> [u8; 4096]
    ensures { length result ≡ 4096 }
{
    let mut file = ds2_file(1, count, 6);
    file[1537] = 3;
    file[2049] = byte1;
    file[2050] = next;
    file
}

// The file whose line the format's description (docs/FORMAT.md) has: its block begins 0F 03 0C FF 06 FF.
pub fn one_qp_block() -> [u8; 4096]
    ensures { length result ≡ 4096 }
{
    let mut file = ds2_file(1, 12, 6);
    file[1536] = 15;
    file[1537] = 3;
    file[1539] = 255;
    file[1541] = 255;
    file
}

// A QP7 file of one block that announces 10 records, all of them long. That `fill` of those places leaves 4096 bytes was not found by the check.
pub fn long_records(byte1: u8) -> [u8; 4096]
    ensures { length result ≡ 4096 }
{
    let mut file = ds2_file(1, 10, 7);
    file[1537] = byte1;
    for place in 1542..2048 {
        file[place] = 255;
    }
    file
}

// A DSS file of one block at 1024, that announces so many packets.
pub fn dss_file(count: u8) -> [u8; 4096]
    ensures { length result ≡ 4096 }
{
    let mut file = [0u8; 4096];
    file[0] = 2;
    file[1] = b'd';
    file[2] = b's';
    file[3] = b's';
    file[1025] = 3;
    file[1026] = count;
    file
}

// A DS2 file whose block begins 8F 03 0C: packet 0 is swapped, and no read stands before it.
pub fn begins_swapped() -> [u8; 4096]
    ensures { length result ≡ 4096 }
{
    let mut file = ds2_file(1, 12, 0);
    file[1536] = 143;
    file[1537] = 3;
    file
}

// A DSS file of two blocks, 0F 03 FF and 8F 03 01: the swapped packet has all its 40 bytes, and the unswapped read before it has none.
pub fn swapped_after_cut() -> [u8; 4096]
    ensures { length result ≡ 4096 }
{
    let mut file = dss_file(255);
    file[1024] = 15;
    file[1536] = 143;
    file[1537] = 3;
    file[1538] = 1;
    file
}

// A DSS file of three blocks, 8F 03 01, 0F 03 01 and 8F 03 01: a swapped packet before any unswapped one, and one after it.
pub fn swapped_twice() -> [u8; 4096]
    ensures { length result ≡ 4096 }
{
    let mut file = dss_file(1);
    file[1024] = 143;
    file[1536] = 15;
    file[1537] = 3;
    file[1538] = 1;
    file[2048] = 143;
    file[2049] = 3;
    file[2050] = 1;
    file
}

// The longest DS2 file that is listed, of 125 blocks, whose first announces 13 packets; and a byte more.
pub fn longest() -> [u8; 65537]
    ensures { length result ≡ 65537 }
{
    let mut file = [0u8; 65537];
    file[0] = 3;
    file[1] = b'd';
    file[2] = b's';
    file[3] = b'2';
    file[1538] = 13;
    file
}

// The bytes 0 to 39.
pub fn rising() -> [u8; 40]
    ensures { length result ≡ 40 }
{
    let mut read = [0u8; 40];
    for k in 0..40u8 {
        read[usize::from(k)] = k;
    }
    read
}

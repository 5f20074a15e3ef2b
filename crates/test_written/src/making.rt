// A case, and what it lends, made from its numbers: a header and packets. Rests on test_expected and test_tools.
use test_expected::Numbers;
use test_tools::{fill_with_noise, put, set};

#[derive(Clone, Copy)]
pub struct Case {
    // Its own number, of which all bytes are noise that are not said here.
    pub number: u64,
    // The header's first four bytes and its length; how many bytes of packets there are.
    first: [u8; 4],
    pub long: usize,
    pub joined: usize,
    // What is put at byte 40 of two packets, 0 for neither, and which they are.
    value: u8,
    one: usize,
    other: usize,
    // How many bytes are lent for the file; four answers, and a digest of the counts that reading it gives.
    pub room: usize,
    pub answers: [u64; 4],
    pub counts: u64,
}

// The next case of the list.
pub fn next_case(numbers: &mut Numbers) -> Case {
    Case {
        number: numbers.next(),
        first: [
            numbers.next_byte(),
            numbers.next_byte(),
            numbers.next_byte(),
            numbers.next_byte(),
        ],
        long: numbers.next_size(),
        joined: numbers.next_size(),
        value: numbers.next_byte(),
        one: numbers.next_size(),
        other: numbers.next_size(),
        room: numbers.next_size(),
        answers: [
            numbers.next(),
            numbers.next(),
            numbers.next(),
            numbers.next(),
        ],
        counts: numbers.next(),
    }
}

// A header, and more noise after it.
pub fn header_of(case: Case) -> [u8; 2048] {
    let mut header = [0u8; 2048];
    fill_with_noise(&mut header, case.number);
    put(&mut header, 0, &case.first);
    header
}

// Puts a value at byte 40 of a packet.
fn mark(packets: &mut [u8], number: usize, value: u8) {
    let place = test_tools::packet_bytes(number).wrapping_add(40);
    set(packets, place, value);
}

// Puts 0 at byte 40 of every packet.
fn clear(packets: &mut [u8]) {
    for number in 0..packets.len() / 42 {
        mark(packets, number, 0);
    }
}

// Packets, and more after them: noise from the next number on, but for their bytes 40.
pub fn packets_of(case: Case) -> [u8; 25620] {
    let mut packets = [0u8; 25620];
    fill_with_noise(&mut packets, case.number.wrapping_add(1));
    clear(&mut packets);
    mark(&mut packets, case.one, case.value);
    mark(&mut packets, case.other, case.value);
    packets
}

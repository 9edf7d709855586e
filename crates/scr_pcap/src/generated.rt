//! A made-up capture. What it holds is said in specs/Generated.antt.
ghost use Rattle.std.specs.Prelude.{◌≡◌, ◌≤◌, ◌<◌, ◌+◌, ◌*◌, ◌/◌, ◌%◌, ◌^◌, ◌++◌, ℕ, length, IfOk, OnOk, Ok};
ghost use Rattle.byteorder.specs.Endian.{big_bytes};
ghost use Rattle.scr_pcap.specs.Generated.{most_hosts, sent_at, frame_between, tcp_frame, udp_frame, frame_of, time_of, generated, generated_records, record_header, record_bytes};
ghost use Rattle.scr_pcap.specs.Reading.{IsReading};
ghost use Rattle.scr_pcap.specs.Records.{RECORDS};

use scr_base::OutOfMemory;
use std::alloc::Global;

#[cfg(test)]
mod tests;

/// The end of a talk that sends a frame.
#[derive(Clone, Copy, Debug, PartialEq, Eq)]
enum Sender {
    Client,
    Server,
}

/// Who sends which frame; of TCP with its flags.
#[derive(Clone, Copy, Debug, PartialEq, Eq)]
enum Sent {
    Tcp(Sender, u8),
    Udp(Sender),
}

/// What a record may hold.
const TABLE: [Sent; 16] = [
    Sent::Tcp(Sender::Client, SYN),
    Sent::Tcp(Sender::Server, SYN | ACK),
    Sent::Tcp(Sender::Client, ACK),
    Sent::Tcp(Sender::Client, ACK),
    Sent::Tcp(Sender::Server, ACK),
    Sent::Tcp(Sender::Client, PSH | ACK),
    Sent::Tcp(Sender::Server, PSH | ACK),
    Sent::Tcp(Sender::Client, FIN | ACK),
    Sent::Tcp(Sender::Server, FIN | ACK),
    Sent::Tcp(Sender::Client, ACK),
    Sent::Tcp(Sender::Server, RST),
    Sent::Udp(Sender::Client),
    Sent::Udp(Sender::Server),
    Sent::Udp(Sender::Client),
    Sent::Tcp(Sender::Client, SYN),
    Sent::Tcp(Sender::Server, ACK),
];

const FIN: u8 = 0x01;

const SYN: u8 = 0x02;

const RST: u8 = 0x04;

const PSH: u8 = 0x08;

const ACK: u8 = 0x10;

const SERVER: u32 = 0x0A80_0001;

const FIRST_CLIENT: u32 = 0x0A00_0001;

const CLIENT_PORT: u16 = 40000;

const TCP_PORT: u16 = 80;

const UDP_PORT: u16 = 53;

/// In microseconds.
const FIRST_TIME: u64 = 1_700_000_000_000_000;

const STEP: u64 = 100;

const CAPTURE_HEADER: [u8; 24] = [
    0xD4, 0xC3, 0xB2, 0xA1, 2, 0, 4, 0, 0, 0, 0, 0, 0, 0, 0, 0, 0, 0, 4, 0, 1, 0, 0, 0,
];

/// The bytes of a frame in front of its addresses.
const TCP_FRONT: [u8; 26] = [
    2, 0, 0, 0, 0, 2, 2, 0, 0, 0, 0, 1, 8, 0, 0x45, 0, 0, 40, 0, 0, 0, 0, 64, 6, 0, 0,
];

const UDP_FRONT: [u8; 26] = [
    2, 0, 0, 0, 0, 2, 2, 0, 0, 0, 0, 1, 8, 0, 0x45, 0, 0, 28, 0, 0, 0, 0, 64, 17, 0, 0,
];

/// The length of a record with a frame of TCP, which is the longest, in bytes.
const LONGEST_RECORD: usize = 70;

/// A capture of so many made-up records of so many hosts. The same numbers give the same bytes.
pub fn generate(alloc: Global, start: u64, frames: u32, hosts: u32) -> Result<Vec<u8>, OutOfMemory>
    requires few_frames { frames ≤ RECORDS }
    requires some_host { 1 ≤ hosts }
    requires few_hosts { hosts ≤ most_hosts }
    ensures capture { IfOk result (λ bytes. bytes.items ≡ generated start frames hosts) }
    ensures reading { IfOk result (λ bytes. IsReading bytes.items (Ok (generated_records start frames hosts))) }
{
    let room = CAPTURE_HEADER.len() + LONGEST_RECORD * frames as usize;
    let mut bytes = Vec::with_capacity(alloc, room)?;
    bytes.extend_from_slice(&CAPTURE_HEADER)?;
    let mut number = start;
    for i in 0..frames {
        number = next(number);
        put_record(&mut bytes, i + 1, number, hosts)?;
    }
    Ok(bytes)
}

// The number of the next record.
fn next(number: u64) -> u64
    ensures { result ≡ (number * 6364136223846793005 + 1442695040888963407) % 2 ^ 64 }
{
    number
        .wrapping_mul(6_364_136_223_846_793_005)
        .wrapping_add(1_442_695_040_888_963_407)
}

// Appends record i, which has this number.
fn put_record(bytes: &mut Vec<u8>, i: u32, number: u64, hosts: u32) -> Result<(), OutOfMemory>
    requires few_frames { i ≤ RECORDS }
    requires some_host { 1 ≤ hosts }
    requires few_hosts { hosts ≤ most_hosts }
    ensures { OnOk result (bytes.new.items ≡ bytes.old.items ++ record_bytes (record { time = time_of i; content = frame_of number hosts })) }
{
    let picked = (number >> 32) as u32;
    let client = FIRST_CLIENT + picked % hosts;
    let sent = sent_at(picked / hosts % 16);
    put_record_header(bytes, FIRST_TIME + STEP * u64::from(i), sent.length())?;
    put_frame(bytes, client, sent)
}

// What stands at this place of the table.
fn sent_at(place: u32) -> Sent
    requires { place < 16 }
    ensures { result ≡ sent_at place }
{
    TABLE[place as usize]
}

impl Sent {
    // The length of the frame, in bytes.
    fn length(self) -> u32
        ensures { (client : ℕ) → result ≡ length (frame_between client self) }
    {
        match self {
            Sent::Tcp(..) => 54,
            Sent::Udp(_) => 42,
        }
    }
}

// Appends what stands in front of a frame of this length.
fn put_record_header(bytes: &mut Vec<u8>, time: u64, length: u32) -> Result<(), OutOfMemory>
    requires { time / 1000000 < 2 ^ 32 }
    ensures { OnOk result (bytes.new.items ≡ bytes.old.items ++ record_header time length) }
{
    let seconds = (time / 1_000_000) as u32;
    let microseconds = (time % 1_000_000) as u32;
    bytes.extend_from_slice(&seconds.to_le_bytes())?;
    bytes.extend_from_slice(&microseconds.to_le_bytes())?;
    bytes.extend_from_slice(&length.to_le_bytes())?;
    bytes.extend_from_slice(&length.to_le_bytes())?;
    Ok(())
}

/// Where a frame comes from and where it goes.
#[derive(Clone, Copy, Debug, PartialEq, Eq)]
struct Ends {
    source: u32,
    source_port: u16,
    destination: u32,
    destination_port: u16,
}

// The ends of a frame between a client and this port of the server.
fn ends_of(sender: Sender, client: u32, port: u16) -> Ends
    ensures client { sender ≡ Sender.Client → result ≡ record { source = client; source_port = CLIENT_PORT; destination = SERVER; destination_port = port } }
    ensures server { sender ≡ Sender.Server → result ≡ record { source = SERVER; source_port = port; destination = client; destination_port = CLIENT_PORT } }
{
    match sender {
        Sender::Client => Ends {
            source: client,
            source_port: CLIENT_PORT,
            destination: SERVER,
            destination_port: port,
        },
        Sender::Server => Ends {
            source: SERVER,
            source_port: port,
            destination: client,
            destination_port: CLIENT_PORT,
        },
    }
}

// Appends the frame between a client and the server.
fn put_frame(bytes: &mut Vec<u8>, client: u32, sent: Sent) -> Result<(), OutOfMemory>
    ensures { OnOk result (bytes.new.items ≡ bytes.old.items ++ frame_between client sent) }
{
    match sent {
        Sent::Tcp(sender, flags) => put_tcp(bytes, ends_of(sender, client, TCP_PORT), flags),
        Sent::Udp(sender) => put_udp(bytes, ends_of(sender, client, UDP_PORT)),
    }
}

fn put_tcp(bytes: &mut Vec<u8>, ends: Ends, flags: u8) -> Result<(), OutOfMemory>
    ensures { OnOk result (bytes.new.items ≡ bytes.old.items ++ tcp_frame ends.source ends.source_port ends.destination ends.destination_port flags) }
{
    bytes.extend_from_slice(&TCP_FRONT)?;
    put_ends(bytes, ends)?;
    bytes.extend_from_slice(&[0, 0, 0, 0, 0, 0, 0, 0])?;
    bytes.extend_from_slice(&[0x50, flags, 0xFF, 0xFF, 0, 0, 0, 0])?;
    Ok(())
}

fn put_udp(bytes: &mut Vec<u8>, ends: Ends) -> Result<(), OutOfMemory>
    ensures { OnOk result (bytes.new.items ≡ bytes.old.items ++ udp_frame ends.source ends.source_port ends.destination ends.destination_port) }
{
    bytes.extend_from_slice(&UDP_FRONT)?;
    put_ends(bytes, ends)?;
    bytes.extend_from_slice(&[0, 8, 0, 0])?;
    Ok(())
}

// Appends the addresses and the ports, which stand behind each other.
fn put_ends(bytes: &mut Vec<u8>, ends: Ends) -> Result<(), OutOfMemory>
    ensures { OnOk result (bytes.new.items ≡ bytes.old.items
        ++ (big_bytes 4 ends.source ++ big_bytes 4 ends.destination ++ big_bytes 2 ends.source_port ++ big_bytes 2 ends.destination_port)) }
{
    bytes.extend_from_slice(&ends.source.to_be_bytes())?;
    bytes.extend_from_slice(&ends.destination.to_be_bytes())?;
    bytes.extend_from_slice(&ends.source_port.to_be_bytes())?;
    bytes.extend_from_slice(&ends.destination_port.to_be_bytes())?;
    Ok(())
}

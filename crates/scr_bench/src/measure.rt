//! What is measured, as the arguments ask for it.
ghost use Rattle.std.specs.Prelude.{◌≤◌};

use std::env;
use std::rt::Env;

/// The rows that a sequencer is given.
#[derive(Clone, Copy)]
pub struct Length {
    pub history: u32,
    pub frames: u32,
    ghost short_history: { history ≤ 64 },
    ghost few_frames: { frames ≤ 1000000 },
}

/// The packets that a program takes.
#[derive(Clone, Copy)]
pub struct Load {
    /// How many flows send them, at least 1.
    pub flows: u32,
    pub packets: u32,
    ghost some_flow: { 1 ≤ flows },
    ghost few_flows: { flows ≤ 1000000 },
}

/// A program whose step is measured.
#[derive(Clone, Copy)]
pub enum Stepped {
    Ddos,
    Heavy,
    Bucket,
    Knock,
    Conn,
}

/// The frames whose messages go through a lane.
#[derive(Clone, Copy)]
pub struct Frames {
    pub count: u32,
    ghost few: { count ≤ 1000000 },
}

/// How many cores share logs.
#[derive(Clone, Copy)]
pub enum Cores {
    Two,
    Four,
}

impl Cores {
    /// Their number.
    pub fn count(self) -> u32
        ensures some { 1 ≤ result }
        ensures few { result ≤ 16 }
    {
        match self {
            Cores::Two => 2,
            Cores::Four => 4,
        }
    }
}

/// The cores that share logs, and the rows of their packets.
#[derive(Clone, Copy)]
pub struct Shared {
    pub cores: Cores,
    pub rows: u32,
    ghost few: { rows ≤ 1000000 },
}

/// What is measured.
#[derive(Clone, Copy)]
pub enum Measure {
    Sequencer(Length),
    Step(Stepped, Load),
    Lane(Frames),
    Log(Shared),
}

/// What the arguments ask for, where they are such words and no others.
pub fn asked_for<R: Env + AllocGlobal>(rt: &R) -> Option<Measure> {
    let words: Vec<String> = env::args(rt).ok()?.skip(1).collect(rt.alloc()).ok()?;
    measure_of(&words)
}

fn measure_of(words: &[String]) -> Option<Measure> {
    let [what, operands @ ..] = words else {
        return None;
    };
    match what.as_str() {
        "sequencer" => sequencer_of(operands),
        "step" => step_of(operands),
        "lane" => lane_of(operands),
        "log" => log_of(operands),
        _ => None,
    }
}

fn sequencer_of(operands: &[String]) -> Option<Measure> {
    let [history, frames] = operands else {
        return None;
    };
    Some(Measure::Sequencer(rows_of(number(history)?, number(frames)?)?))
}

fn step_of(operands: &[String]) -> Option<Measure> {
    let [program, flows, packets] = operands else {
        return None;
    };
    Some(Measure::Step(
        program_named(program)?,
        packets_of(number(flows)?, number(packets)?)?,
    ))
}

fn lane_of(operands: &[String]) -> Option<Measure> {
    let [count] = operands else {
        return None;
    };
    Some(Measure::Lane(frames_of(number(count)?)?))
}

fn log_of(operands: &[String]) -> Option<Measure> {
    let [cores, rows] = operands else {
        return None;
    };
    Some(Measure::Log(shared_by(cores_of(cores)?, number(rows)?)?))
}

fn number(word: &str) -> Option<u32> {
    word.parse::<u32>().ok()
}

fn rows_of(history: u32, frames: u32) -> Option<Length> {
    if history <= 64 && frames <= 1_000_000 {
        Some(Length { history, frames })
    } else {
        None
    }
}

fn packets_of(flows: u32, packets: u32) -> Option<Load> {
    if 1 <= flows && flows <= 1_000_000 {
        Some(Load { flows, packets })
    } else {
        None
    }
}

fn frames_of(count: u32) -> Option<Frames> {
    if count <= 1_000_000 {
        Some(Frames { count })
    } else {
        None
    }
}

fn cores_of(word: &str) -> Option<Cores> {
    match word {
        "2" => Some(Cores::Two),
        "4" => Some(Cores::Four),
        _ => None,
    }
}

fn shared_by(cores: Cores, rows: u32) -> Option<Shared> {
    if rows <= 1_000_000 {
        Some(Shared { cores, rows })
    } else {
        None
    }
}

fn program_named(name: &str) -> Option<Stepped> {
    match name {
        "ddos" => Some(Stepped::Ddos),
        "heavy" => Some(Stepped::Heavy),
        "bucket" => Some(Stepped::Bucket),
        "knock" => Some(Stepped::Knock),
        "conn" => Some(Stepped::Conn),
        _ => None,
    }
}

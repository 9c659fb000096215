//! A fixed sub-channel as a program. `fixed send R DEPTH`: the stream on standard input, sent; its groups go to standard output, each as soon
//! as its bytes are in, the closing push behind them. `fixed list R DEPTH`: received bytes on standard input; a line of each answer goes to
//! standard output as it comes, the totals behind them. Where something fails it says so on standard error and stops.
#![tactic(auto)]

mod listing;
mod sending;

use base::{Refusal, Written};
use console::{Speak, is_argument};
use std::env::Env;
use std::io;
use std::process::ExitCode;

// The sender, or the receiver.
#[derive(Clone, Copy)]
enum Task {
    Send,
    List,
}

fn main(rt: HostRuntime) -> ExitCode {
    console::status(choose(&rt))
}

// What the arguments ask for.
fn choose(rt: &(impl Env + Input + Print + Speak)) -> io::Result<()> {
    let (4, Some(parity), Some(depth), Some(task)) = (
        console::argument_count(rt),
        console::number(rt, 2, 2),
        console::number(rt, 3, 2),
        asked(rt),
    ) else {
        usage(rt);
        return Ok(());
    };
    // Settings that are refused are so before anything is read.
    if let Err(refusal) = subchannel_sender::count(parity, depth, 0) {
        say_refused(rt, refusal);
        return Ok(());
    }
    match task {
        Task::Send => sending::send_all(rt, parity, depth),
        Task::List => listing::list_all(rt, parity, depth),
    }
}

// What the first argument asks for.
fn asked(rt: &impl Env) -> Option<Task> {
    if is_argument(rt, 1, b"send") {
        return Some(Task::Send);
    }
    if is_argument(rt, 1, b"list") {
        return Some(Task::List);
    }
    None
}

fn usage(rt: &impl Speak) {
    console::say(
        rt,
        b"usage: fixed send|list R DEPTH <IN >OUT; R and DEPTH are numbers from 0 to 64\n",
    );
}

fn say_refused(rt: &impl Speak, refusal: Refusal) {
    console::say_refusal(rt, b"fixed", refusal as u8);
}

fn say_unread(rt: &impl Speak) {
    console::say_unread(rt, b"fixed");
}

// What was written, to standard output; whether there is such.
fn put(rt: &(impl Print + Speak), written: Written, out: &[u8]) -> io::Result<bool> {
    console::put(rt, b"fixed", written, out)
}

// Reads messages in hexadecimal from standard input, one to a line, and prints what each says, or its fault.
// A line begins with the kind of value of its run: `n` for numbers, `m` for graded maps.
#![tactic(auto)]

mod hex;
mod words;

use anyhow::bail;
use hex::bytes_of;
use message::Message;
use std::fmt::Display;
use value::{GradedMap, Number, Value};
use words::InWords;

// The longest message: the widest value has 64 bytes.
const LONGEST: usize = 88;

// Whether a message is written as the bytes it was read from; into an array, since a list on the heap could run
// out of memory.
fn is_written_as<V: Value>(message: &Message<V>, bytes: &[u8]) -> bool {
    let mut out = [0; LONGEST];
    let size = message.size();
    size <= LONGEST && message.write(&mut out).is_ok() && bytes.starts_with(&out[..size])
}

// Prints what the bytes of a message read as, and whether it is written as they are; or their fault.
fn inspect<V: Value>(rt: &impl Print, bytes: &[u8]) -> anyhow::Result<()>
where
    InWords<V>: Display,
{
    match message::read::<V>(bytes) {
        Ok(borrowed) => {
            // what was read opens, as the contract of `read` says
            let message = message::open::<V>(borrowed).unwrap();
            let written = if is_written_as(&message, bytes) {
                "as read"
            } else {
                "otherwise"
            };
            println!(rt; "{}; written {written}", InWords(message))?;
        }
        Err(fault) => println!(rt; "{}", InWords(fault))?,
    }
    Ok(())
}

fn run(rt: &(impl Input + Print + AllocGlobal)) -> anyhow::Result<()> {
    for line in rt.lines(rt.alloc()) {
        let line = line?;
        match line.as_bytes() {
            [b'n', text @ ..] => inspect::<Number>(rt, &bytes_of(rt.alloc(), text)?)?,
            [b'm', text @ ..] => inspect::<GradedMap>(rt, &bytes_of(rt.alloc(), text)?)?,
            _ => bail!("a line begins with n or m"),
        }
    }
    Ok(())
}

fn main(rt: HostRuntime) -> anyhow::Result<()> {
    run(&rt)
}

//! From words to a command.
ghost use Rattle.std.specs.Prelude.{IfOk, IsErrOf, map, string_bytes};
ghost use Rattle.tnc_words.specs.declared.command.Command.{Command};
ghost use Rattle.tnc_words.specs.Commands.{Asks};

use crate::bench_words::read_bench;
use crate::call_words::read_call;
use crate::command::Command;
use crate::decode_words::read_decode;
use crate::encode_words::read_encode;
use crate::fault::WordsFault;
use crate::help_words::read_help;
use crate::loop_words::read_loop;
use crate::record_words::read_record;
use crate::serve_words::read_serve;
use crate::show_words::read_show;
use std::alloc::Global;

/// The command that `words`, those after the program's name, ask for.
pub fn read_words(alloc: Global, words: &[String]) -> Result<Command, WordsFault>
    ensures asks { IfOk result (Asks (map string_bytes words.now)) }
    ensures refused { IsErrOf result WordsFault.Refused
        → (command : Command) → ¬ Asks (map string_bytes words.now) command }
{
    if let Some(asked) = read_help(words) {
        return Ok(asked);
    }
    let Some(first) = words.first() else {
        return Err(WordsFault::Refused);
    };
    match first.as_str() {
        "decode" => Ok(Command::Decode(read_decode(alloc, words)?)),
        "encode" => Ok(Command::Encode(read_encode(alloc, words)?)),
        "show" => Ok(Command::Show(read_show(alloc, words)?)),
        "loop" => Ok(Command::Loop(read_loop(alloc, words)?)),
        "bench" => Ok(Command::Bench(read_bench(alloc, words)?)),
        "serve" => Ok(Command::Serve(read_serve(alloc, words)?)),
        "record" => Ok(Command::Record(read_record(alloc, words)?)),
        "call" => Ok(Command::Call(read_call(alloc, words)?)),
        _ => Err(WordsFault::Refused),
    }
}

// What the words of a command line ask for, as far as it is built.
ghost use Rattle.std.specs.Prelude.{◌≡◌, ◌≢◌, ◌<◌, Err, IfOk, map, string_bytes};
ghost use Rattle.opam_top.specs.Refusals.{Gives};
ghost use Rattle.opam_top.specs.Requests.{built_command, request_of};
ghost use Rattle.command_words.specs.Commands.{IsReadCommand};

use crate::stops::{Stop, stop_for_words, stop_not_built};
use command_words::{Change, Command, WordFault, read_words};
use opam_names::Text;
use std::alloc::Global;

// To install all that a lock binds, from the repository in a folder, with so many jobs at a time.
#[derive(Drop)]
pub struct Request {
    pub lock_file: Text,
    pub repo: Text,
    pub jobs: u32,
}

pub fn read_request(alloc: Global, words: &[String]) -> Result<Request, Stop>
    ensures host { result ≢ Err Stop.Host }
    ensures disk { result ≢ Err Stop.Disk }
    ensures told { Gives (λ (request : Request). request) result (request_of (map string_bytes words.now)) }
    ensures jobs { IfOk result (λ request. 0 < request.jobs) }
{
    match read_words(alloc, words) {
        Ok(command) => built_command(alloc, command),
        Err(WordFault::Memory) => Err(Stop::Memory),
        Err(fault) => Err(stop_for_words(alloc, &fault)),
    }
}

fn built_command(alloc: Global, command: Command) -> Result<Request, Stop>
    requires { IsReadCommand command }
    ensures host { result ≢ Err Stop.Host }
    ensures disk { result ≢ Err Stop.Disk }
    ensures told { Gives (λ (request : Request). request) result (built_command command) }
    ensures jobs { IfOk result (λ request. 0 < request.jobs) }
{
    match command {
        Command::Change(
            Change::Install {
                lock_file,
                repo,
                jobs,
                names,
            },
        ) => {
            if names.is_empty() {
                Ok(Request {
                    lock_file,
                    repo,
                    jobs,
                })
            } else {
                Err(stop_not_built(alloc))
            }
        }
        _ => Err(stop_not_built(alloc)),
    }
}

// The command reader as a struct: the file that it walks, and the offset of the next command. Few thin functions, each
// of which takes the struct apart; what stands at an offset is `command_at`'s to say. `read_command`, above them, has
// plain parameters, and serves whoever has a file and an offset.
ghost use Rattle.std.specs.Prelude.{◌≡◌};
ghost use Rattle.game.specs.Command.{command_at};

use crate::command::{Command, Unread, command_at};

#[derive(Clone, Copy)]
pub struct CommandReader<'a> {
    file: &'a [u8],
    next: usize,
}

impl<'a> CommandReader<'a> {
    // The reader over a file, at its first command.
    pub fn over(file: &'a [u8]) -> CommandReader<'a>
        ensures { (result.file ≡ file.entry) × (result.next ≡ 0) }
    {
        CommandReader { file, next: 0 }
    }

    // The reader over the same file, with the next command at another offset.
    pub fn moved_to(self, next: usize) -> CommandReader<'a>
        ensures { (result.file ≡ self.entry.file) × (result.next ≡ next) }
    {
        CommandReader {
            file: self.file,
            next,
        }
    }

    // What stands at the offset of the next command: the command with the offset after it, to which a caller moves on.
    pub fn next_command(self) -> Result<(Command, usize), Unread>
        ensures { result ≡ command_at self.entry.file.now self.entry.next }
    {
        command_at(self.file, self.next)
    }
}

// What stands at an offset of a file, by way of a reader.
pub fn read_command(file: &[u8], at: usize) -> Result<(Command, usize), Unread>
    ensures { result ≡ command_at file.now at }
{
    CommandReader::over(file).moved_to(at).next_command()
}

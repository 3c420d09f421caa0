// The commands: their names, how many arguments they take, and what `help` says of them.

// What a command does. Cases, and no functions in the table: a function pointer is not handed out here.
#[derive(Clone, Copy)]
pub enum Action {
    Check,
    Image,
    Sheet,
    Decode,
    Encode,
    Run,
    Show,
    Svg,
    Bench,
    // command lines from standard input
    Several,
    Help,
    Version,
}

#[derive(Clone, Copy)]
pub struct Command {
    pub action: Action,
    pub name: &'static [u8],
    // The least and the most arguments; the program's name and the command's are counted.
    least: usize,
    most: usize,
    // how it is written, what it prints, and an example: a line each
    pub usage: &'static [u8],
    pub prints: &'static [u8],
    pub example: &'static [u8],
}

// As many arguments as there are.
const ANY: usize = usize::MAX;

pub const COMMANDS: [Command; 12] = [
    Command {
        action: Action::Check,
        name: b"check",
        least: 3,
        most: ANY,
        usage: b"lights check SHEET..\n",
        prints: b"    for each file: accepted, or its refusal, with its place and what to correct\n",
        example: b"    example: lights check sheets/pull-me.sheet sheets/draining.sheet\n",
    },
    Command {
        action: Action::Image,
        name: b"image",
        least: 3,
        most: 3,
        usage: b"lights image SHEET\n",
        prints: b"    the words of memory in hex, sixteen a line\n",
        example: b"    example: lights image sheets/pull-me.sheet > pull-me.hex\n",
    },
    Command {
        action: Action::Sheet,
        name: b"sheet",
        least: 6,
        most: 6,
        usage: b"lights sheet IMAGE E1 E2 E3\n",
        prints: b"    the sheet of an image; each engine's plan is -, first-last or first-last/top-bottom\n",
        example: b"    example: lights sheet pull-me.hex 0-6/16-16 - -\n",
    },
    Command {
        action: Action::Decode,
        name: b"decode",
        least: 2,
        most: ANY,
        usage: b"lights decode [WORD..]\n",
        prints: b"    the op line of each four-digit hex word; without words, of those on standard input\n",
        example: b"    example: lights decode 40FF 7E00\n",
    },
    Command {
        action: Action::Encode,
        name: b"encode",
        least: 2,
        most: ANY,
        usage: b"lights encode [op=.. ..]\n",
        prints: b"    the hex word of an op line; without one, of each line of standard input\n",
        example: b"    example: lights encode op=set value=255\n",
    },
    Command {
        action: Action::Run,
        name: b"run",
        least: 4,
        most: 4,
        usage: b"lights run SHEET BEATS\n",
        prints: b"    so many beats of a sheet's program: beats and words done, then the state\n",
        example: b"    example: lights run sheets/pull-me.sheet 4096\n",
    },
    Command {
        action: Action::Show,
        name: b"show",
        least: 4,
        most: 5,
        usage: b"lights show SHEET BEATS [FROM]\n",
        prints: b"    the lights as a picture, time from left to right, from beat FROM on\n",
        example: b"    example: lights show sheets/pull-me.sheet 2048 4096\n",
    },
    Command {
        action: Action::Svg,
        name: b"svg",
        least: 4,
        most: 5,
        usage: b"lights svg SHEET BEATS [FROM]\n",
        prints: b"    the same as an SVG document\n",
        example: b"    example: lights svg sheets/pull-me.sheet 4096 > pull-me.svg\n",
    },
    Command {
        action: Action::Bench,
        name: b"bench",
        least: 2,
        most: 3,
        usage: b"lights bench [SHEET]\n",
        prints: b"    a chip that answers the commands on standard input; the command help lists them\n",
        example: b"    example: lights bench sheets/pull-me.sheet\n",
    },
    Command {
        action: Action::Several,
        name: b"-",
        least: 2,
        most: 2,
        usage: b"lights -\n",
        prints: b"    command lines from standard input\n",
        example: b"    example: lights - < commands.txt\n",
    },
    Command {
        action: Action::Help,
        name: b"help",
        least: 2,
        most: 3,
        usage: b"lights help [COMMAND]\n",
        prints: b"    the commands, or one of them with an example; help ops: every op of a sheet\n",
        example: b"    example: lights help show\n",
    },
    Command {
        action: Action::Version,
        name: b"--version",
        least: 2,
        most: 2,
        usage: b"lights --version\n",
        prints: b"    the version, and the chips that it knows\n",
        example: b"    example: lights --version\n",
    },
];

impl Command {
    // The command of this name. Help has two more.
    pub fn find(name: &[u8]) -> Option<&'static Command> {
        let name = match name {
            b"--help" | b"-h" => b"help",
            _ => name,
        };
        COMMANDS.iter().find(|command| command.name == name)
    }

    pub fn takes(&self, count: usize) -> bool {
        (self.least..=self.most).contains(&count)
    }
}

// The templates of all that is told in a line. In a template `%` stands for the next part, `!` for the
// quote, and `^` for the name of a file or a command.

// What stands before a sentence.
pub const NOTHING: &[u8] = b"";

pub const NAMED: &[u8] = b"^: ";

pub const MALFORMED: &[u8] = b"malformed: ";

pub const REFUSED: &[u8] = b"refused %: ";

pub const REFUSED_FILE: &[u8] = b"^: refused %: ";

pub const REFUSED_LINE: &[u8] = b"^:%: refused %: ";

pub const REFUSED_ENGINE: &[u8] = b"^: refused % engine=%: ";

pub const REFUSED_WORD: &[u8] = b"^: refused % engine=% address=%: ";

pub const REFUSED_WORD_LINE: &[u8] = b"^:%: refused % engine=% address=%: ";

// Answers.
pub const ACCEPTED: &[u8] = b"accepted";

pub const UNDEFINED: &[u8] = b"undefined";

pub const COUNTS: &[u8] = b"beats=% words=%,%,%";

pub const COUNTS_QUIET: &[u8] = b"beats=% words=%,%,% quiet";

pub const INTERRUPTS: &[u8] = b"interrupts=%,%,%";

pub const VERSION: &[u8] = b"lights 1.0 (chips: LP5523)";

pub const BRIEF: &[u8] = b"lights: proved tools for LP5523 light programs\n\
try: lights check SHEET, lights show SHEET 4096, or lights help";

pub const BENCH_HELP: &[u8] =
    b"burst A B B ..   write bytes from register A on, all decimal: ok, or refused\n\
beat             one beat: the pin output event, and the words that each engine ended\n\
beat pulse       one beat with a pulse at the trigger pin\n\
run N            at most N beats, up to the first before which all is quiet\n\
interrupts       the three interrupt flags, which are cleared\n\
state            the chip, its engines and its outputs\n\
memory           the 96 words in hex\n\
help             these lines\n\
quit             the end";

// Files and arguments.
pub const UNREADABLE: &[u8] = b"unreadable: the file can't be opened or read";

pub const TOO_LARGE: &[u8] = b"unreadable: the file has more than 65535 bytes";

pub const NO_IMAGE: &[u8] =
    b"malformed: an image is lines of sixteen words, each of four hex digits, one space between";

pub const READ_ALREADY: &[u8] = b"standard input was read already, so - is no file here";

pub const HAS_COMMANDS: &[u8] = b"standard input has the commands, so - is no file here";

pub const COMMANDS_ALREADY: &[u8] = b"standard input has the commands already";

pub const INPUT_BROKEN: &[u8] = b"lights: standard input can't be read";

pub const INPUT_ENDLESS: &[u8] = b"lights: standard input has no end";

pub const LOADING_REFUSED: &[u8] = b"lights: a write was refused while the program was loaded";

pub const LONG_LINE: &[u8] = b"the line has more than 65535 bytes";

pub const LONG_OP_LINE: &[u8] = b"the op line is longer than the program can hold";

pub const NO_COMMAND: &[u8] = b"there is no command ^; lights help lists them";

pub const NO_BEATS: &[u8] = b"a number of beats is decimal, without leading zeros";

pub const NO_PLAN: &[u8] = b"an engine's plan is -, first-last or first-last/top-bottom";

pub const NO_WORD: &[u8] = b"a word is four hex digits";

// The bench's lines.
pub const NO_BURST: &[u8] =
    b"burst takes a register and bytes, decimal, without leading zeros, one space between";

pub const NO_REGISTER: &[u8] = b"a register is 0 to 65535";

pub const NO_BYTE: &[u8] = b"a byte is 0 to 255";

pub const NO_RUN: &[u8] = b"run takes a decimal number of beats, without leading zeros";

pub const NOTHING_BEHIND: &[u8] =
    b"beat takes nothing or pulse; interrupts, state, memory and help take nothing";

pub const NO_BENCH_COMMAND: &[u8] =
    b"the commands are burst, beat, run, interrupts, state, memory, help and quit";

// Refusals of a chip's calls.
pub const EMPTY_BURST: &[u8] = b"a burst has at least one byte";

pub const UNLISTED_ADDRESS: &[u8] = b"an address of the burst is no register";

pub const OUTSIDE_REGISTER: &[u8] =
    b"a reserved bit is set, the page is above % or a start above %";

pub const LOAD_REFUSED: &[u8] = b"an engine can be loaded only from disabled";

pub const START_IN_USE: &[u8] = b"the engine is in run or halt, so its start can't be written";

pub const MEMORY_IN_USE: &[u8] =
    b"memory can be written only while an engine loads and none is in a word";

pub const OUTPUT_HELD: &[u8] = b"an engine holds the output";

pub const TOO_MANY_BEATS: &[u8] = b"a run has at most % beats";

// The checker and the disassembler.
pub const IMAGE_LENGTH: &[u8] = b"an image has % words";

pub const OUT_OF_ORDER: &[u8] = b"first is above last, top above bottom, or one of them above %";

pub const CODE_MEETS_TABLE: &[u8] = b"its code has an address in common with a table";

pub const UNDEFINED_WORD: &[u8] = b"this word is no instruction";

pub const STEP_OUTSIDE: &[u8] =
    b"engine % can step from word % to word %, outside its words % to %";

pub const LEAVES: &[u8] = b"engine % can leave its words % to %";

pub const NO_TABLE: &[u8] = b"engine % has no table, so mux-clr and mux-sel are its only mux words";

pub const TABLE_BEGIN: &[u8] = b"the table begins at word %, this word has %";

pub const TABLE_END: &[u8] = b"the table ends at word %, this word has %";

pub const TABLE_ROW: &[u8] = b"the table is words % to %, this word has %";

pub const TABLE_MISUSED: &[u8] = b"this word doesn't keep to the table";

pub const TABLE_NOT_OPENED: &[u8] =
    b"with a table the code begins with mux-map-start or mux-ld-start, then mux-ld-end";

pub const ROW_BITS: &[u8] =
    b"a row has bits 0 to 8 for D1 to D9 and bit 15 for the GPO, and no others";

pub const LONG_SHEET: &[u8] = b"the sheet is longer than the program can hold";

// The reader.
pub const LINE_COUNT: &[u8] =
    b"there are % lines, and a sheet has %: the plan lines and one for each word; an empty line counts too";

pub const NO_LINE_FEED: &[u8] = b"the sheet has no line feed at its end";

pub const EMPTY_LINE: &[u8] = b"an empty line";

pub const CARRIAGE_RETURN: &[u8] = b"a carriage return before the line's end";

pub const BYTE_ORDER_MARK: &[u8] = b"a byte order mark at the start";

pub const TAB: &[u8] = b"a tab";

pub const TWO_SPACES: &[u8] = b"two spaces";

pub const SPACE_AT_START: &[u8] = b"a space at the line's start";

pub const SPACE_AT_END: &[u8] = b"a space at the line's end";

pub const NO_OP_KEY: &[u8] = b"an op line begins with op=";

pub const NO_OP_VALUE: &[u8] = b"op= has no value";

pub const TWO_SIGNS: &[u8] = b"op=! has an equals sign too many";

pub const UNKNOWN_OP: &[u8] = b"there is no op=!";

pub const NEAR_OP: &[u8] = b"there is no op=!; write op=%";

pub const NO_KEY: &[u8] = b"op=% stands alone";

pub const ONE_KEY: &[u8] = b"op=% has % and nothing else";

pub const KEYS: &[u8] = b"op=% has %, in this order";

pub const NO_VALUE: &[u8] = b"%= has no value";

pub const NO_NUMBER: &[u8] = b"%= is a decimal number without leading zeros";

pub const ALLOWED: &[u8] = b"%= is %";

pub const ENGINE: &[u8] = b"engine= is % in this line";

pub const UP_BY_ZERO: &[u8] = b"a % up has %= 1 to %";

pub const PLAN: &[u8] =
    b"a plan line is engine=% use=no, or engine=% use=yes first=.. last=.. table=no, or with table=yes top=.. bottom=.. at its end";

pub const ROW_SHAPE: &[u8] = b"row= is followed by one decimal number without leading zeros";

pub const ROW_RANGE: &[u8] = b"row= is 0 to %";

pub const SPARE_SHAPE: &[u8] = b"spare= is followed by one decimal number without leading zeros";

pub const SPARE_RANGE: &[u8] = b"spare= is 0 to %";

pub const CODE_PLACE: &[u8] = b"word % is code of engine %: an op line belongs here";

pub const ROW_PLACE: &[u8] = b"word % is a row of engine %'s table: row=N belongs here";

pub const SPARE_PLACE: &[u8] =
    b"word % is outside every engine's code and table, so this line has to be spare=N";

pub const NO_ENGINE: &[u8] = b"engine= has no value";

pub const ENGINE_SHAPE: &[u8] = b"engine= is a decimal number without leading zeros";

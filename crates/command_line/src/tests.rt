//! Command lines, each with what it gives: the command with its values, or what is wrong.
use crate::{ArgumentText, Arguments, ArgumentsFault, Words, arguments_of};
use std::alloc::{AllocError, Global};
use std::test::Fail;

// The words of a line, which one blank parts.
fn words_of(alloc: Global, line: &str) -> Result<Words, AllocError> {
    let mut words = Words::new(alloc);
    for text in line.split(' ') {
        words.push(ArgumentText::from_string(String::from_str(alloc, text)?))?;
    }
    Ok(words)
}

// The command and its values.
fn shown(alloc: Global, arguments: &Arguments<'_>) -> Result<String, AllocError> {
    match arguments {
        Arguments::Answer(given) => format!(in alloc;
            "answer {} {} {} {} {} {}",
            given.service,
            given.address,
            given.port,
            given.accounts.unwrap_or("-"),
            given.store.unwrap_or("-"),
            given.request
        ),
        Arguments::Init(given) => format!(in alloc; "init {} {}", given.file, given.area),
        Arguments::Check(given) => format!(in alloc; "check {}", given.file),
        Arguments::Compact(given) => format!(in alloc; "compact {}", given.file),
        Arguments::Migrate(given) => format!(in alloc; "migrate {}", given.file),
        Arguments::Help(help) => format!(in alloc; "help: {}", help.text),
    }
}

// What the line gives.
fn outcome(alloc: Global, line: &str) -> Result<String, AllocError> {
    let words = words_of(alloc, line)?;
    match arguments_of(alloc, &words) {
        Ok(arguments) => shown(alloc, &arguments),
        Err(ArgumentsFault::Invalid { text }) => Ok(text),
        Err(ArgumentsFault::Memory) => Err(AllocError),
    }
}

// Whether each row's line gives what stands after the arrow, or, after an exclamation mark, a text with that in it.
fn first_wrong<'a>(alloc: Global, rows: &'a str) -> Result<Option<&'a str>, AllocError> {
    for row in rows.lines() {
        let Some((line, wanted)) = row.split_once(" => ") else {
            return Ok(Some(row));
        };
        let given = outcome(alloc, line)?;
        let fits = match wanted.strip_prefix("! ") {
            Some(part) => given.as_str().contains(part),
            None => given.as_str() == wanted,
        };
        if !fits {
            return Ok(Some(row));
        }
    }
    Ok(None)
}

static ROWS: &str = r"answer s => answer s 127.0.0.1 9000 - - 16777216
answer 35.TEST/svc --request=64 => answer 35.TEST/svc 127.0.0.1 9000 - - 64
answer s --port=80 => answer s 127.0.0.1 80 - - 16777216
answer s --port 80 => answer s 127.0.0.1 80 - - 16777216
answer --port 80 s => answer s 127.0.0.1 80 - - 16777216
answer s --store f --accounts g --address a => answer s a 9000 g f 16777216
answer s --address=-x => answer s -x 9000 - - 16777216
answer s --address= => answer s  9000 - - 16777216
answer -- -s => answer -s 127.0.0.1 9000 - - 16777216
answer -- --help => answer --help 127.0.0.1 9000 - - 16777216
answer --port 1 -- s => answer s 127.0.0.1 1 - - 16777216
answer s --port 65535 => answer s 127.0.0.1 65535 - - 16777216
answer s --port 65536 => ! invalid value '65536' for '--port <N>': a number from 1 to 65535
answer s --port 0 => ! invalid value '0' for '--port <N>': a number from 1 to 65535
answer s --port +80 => ! invalid value '+80' for '--port <N>': a number from 1 to 65535
answer s --port 080 => ! invalid value '080' for '--port <N>': a number from 1 to 65535
answer s --port x => ! invalid value 'x' for '--port <N>': a number from 1 to 65535
answer s --port= => ! invalid value '' for '--port <N>': a number from 1 to 65535
answer s --port => ! a value is required for '--port <N>'
answer s --request 63 => ! invalid value '63' for '--request <N>': a number from 64 to 16777216
answer s --request 16777217 => ! invalid value '16777217' for '--request <N>': a number from 64 to 16777216
answer s --prot 80 => ! unexpected argument '--prot' found
answer s --por 80 => ! unexpected argument '--por' found
answer s --port 1 --port 2 => ! the argument '--port <N>' cannot be used multiple times
answer s --address -x => ! unexpected argument '-x' found
answer s --address => ! a value is required for '--address <A>'
answer -s => ! unexpected argument '-s' found
answer --help => ! Usage: zenkawi answer
answer --help s => ! error: unexpected argument '--help' found
answer s --help => ! unexpected argument '--help' found
answer s t => ! unexpected argument 't' found
answer => ! <SERVICE>
answer  => ! invalid value '' for '<SERVICE>': 1 to 255 bytes
init f => init f 268435456
init f --area 64 => init f 64
init --area=268435456 f => init f 268435456
init f --area 63 => ! invalid value '63' for '--area <N>': a number from 64 to 268435456
init f --area 268435457 => ! invalid value '268435457' for '--area <N>': a number from 64 to 268435456
init -- -f => init -f 268435456
init => ! <FILE>
check f => check f
check -- -f => check -f
check => ! <FILE>
check f g => ! unexpected argument 'g' found
compact f => compact f
compact => ! <FILE>
migrate -- -f => migrate -f
migrate f --force => ! unexpected argument '--force' found
migrate --help => ! Usage: zenkawi migrate
check f --area 64 => ! unexpected argument '--area' found
init --help => ! The bytes of each of the file's two areas, from 64 to 268435456
check --help => ! Usage: zenkawi check
--help => ! Usage: zenkawi <COMMAND>
--help answer => ! Usage: zenkawi <COMMAND>
--version => ! zenkawi 0.1.0
check --version => ! error: unexpected argument '--version' found
-h => ! error: unknown command '-h'
call 35.TEST/svc => ! unknown command 'call': answer, init, check, compact or migrate
 => ! unknown command '': answer, init, check, compact or migrate
-- answer s => ! unknown command '--': answer, init, check, compact or migrate";

#[test]
fn each_command_line_gives_its_command(rt: HostRuntime) -> Result<(), Fail> {
    if let Some(row) = first_wrong(rt.alloc(), ROWS)? {
        return Err(Fail::from(row));
    }
    Ok(())
}

#[test]
fn a_fault_names_the_argument_and_has_the_usage(rt: HostRuntime) -> Result<(), Fail> {
    let text = outcome(rt.alloc(), "answer s --prot 80")?;
    assert!(rt;
        text.as_str()
            == "error: unexpected argument '--prot' found\n\n  tip: a similar argument exists: '--port'\n\nUsage: zenkawi answer --port <N> <SERVICE>\n"
    );
    Ok(())
}

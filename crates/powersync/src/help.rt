//! What the program says of itself where nothing else is asked: its commands, their words and options, and its version.

use ps_data::Text;

const COMMANDS: &str =
    "powersync: a sync service for offline-first applications, its client, and tools around both

  check RULES                         what the rules have, and warnings; or the first fault, with its place
  rows RULES CHANGES CLAIMS           the rows that one user gets, after all changes
  replay RULES CHANGES SCRIPT [NEXT]  what each event of a script does
  compact RULES CHANGES               what the compaction of each bucket reports
  token KEYS KID CLAIMS               a signed token (RFC 7519, HS256)
  generate N [lines]                  a summary of N made transactions, or their lines
  snapshot RULES LINES CLAIMS         the rows that one user gets, from a first copy of tables that runs beside changes
  audit RULES CHANGES CLAIMS STREAM   whether a recorded stream showed its user the right rows
  serve OPTIONS                       the service, on a socket
  sync OPTIONS                        a client of a service: uploads, and the rows of one checkpoint

powersync COMMAND --help says more of one command. docs/FORMATS.md has the files, the texts and the statuses.
Example: powersync rows examples/todo/rules.yaml examples/todo/changes.jsonl examples/todo/ann.json
";

const VERSION: &str = "powersync 0.1.0\n";

const CHECK: &str = "powersync check RULES

Prints a line for each bucket definition of the rules file, and a line for each warning. A fault is said with its line and column, status 2.
Example: powersync check examples/todo/rules.yaml
";

const ROWS: &str = "powersync rows RULES CHANGES CLAIMS

Prints the rows that the asker of the claims file gets, after all transactions of the change file: the type, the id and the data, one row on a line.
Example: powersync rows examples/todo/rules.yaml examples/todo/changes.jsonl examples/todo/ann.json
";

const REPLAY: &str = "powersync replay RULES CHANGES SCRIPT [NEXT]

Plays a script of events against a store: feeding, writing, committing and compacting, and clients with their streams. Prints what each event did.
With a rules file NEXT, the script can deploy its rules, build what they make of the rows, and switch to them while streams run.
Example: powersync replay examples/todo/rules.yaml examples/todo/changes.jsonl examples/todo/script.txt
";

const COMPACT: &str = "powersync compact RULES CHANGES

Writes the change file into buckets, compacts each bucket once, and prints a report of each.
Example: powersync compact examples/items/rules.yaml examples/items/changes.jsonl
";

const TOKEN: &str = "powersync token KEYS KID CLAIMS

Prints a token of the claims file's token, signed with the key of that kid of the key file.
Example: powersync token examples/todo/keys.json k1 examples/todo/ann.json
";

const GENERATE: &str = "powersync generate N [lines]

Makes N transactions, from 1 to 100,000, and prints a summary of them, or with `lines` the change lines themselves.
Example: powersync generate 10
";

const SNAPSHOT: &str = "powersync snapshot RULES LINES CLAIMS

Prints rows as `rows` does, from a file in which a first copy of tables runs beside changes: docs/FORMATS.md, First copies.
Example: powersync snapshot examples/first/rules.yaml examples/first/lines.jsonl examples/first/ann.json
";

const AUDIT: &str = "powersync audit RULES CHANGES CLAIMS STREAM

Judges a recorded stream without a service: a line for each checkpoint that it completed, then `yes` and their number, or the line that breaks it and how, status 15.
The first line of the stream file is the body of the stream's request, and names no bucket. The other lines are the stream's.
Example: powersync audit rules.yaml changes.jsonl claims.json recorded.jsonl
";

const SERVE: &str = "powersync serve --rules FILE --changes FILE --keys FILE --listen ADDRESS

Serves streams, uploads and write checkpoints over HTTP: docs/OPERATING.md.

  --rules FILE        the rules
  --changes FILE      the changes of the source, one transaction on a line
  --keys FILE         the keys that sign tokens
  --listen ADDRESS    a host and a port
  --connections N     take so many connections and no more, and end once they have ended; 1 to 1,000,000
  --until-drained     feed the file and nothing more; a stream ends once it has shown all of it
  --batch N           write at most so many changes in one turn; 1 to 1,000,000, else 1,000
  --compact-at N      compact a bucket that has so many operations more than after its last compaction; 1 to 1,000,000, else 1,000
  --next FILE         rules that come into force while it serves, once their buckets are built beside what is written
  --next-after N      begin with them once so many transactions are committed; 0 to 9223372036854775807, else 0

Example: powersync serve --rules examples/todo/rules.yaml --changes examples/todo/changes.jsonl --keys examples/todo/keys.json --listen 127.0.0.1:8080
";

const SYNC: &str = "powersync sync --connect ADDRESS --token-file FILE --client-id ID

Uploads local writes, waits for a checkpoint that has them, and prints the rows that it shows.

  --connect ADDRESS   the service: a host and a port
  --token-file FILE   the token of the user
  --client-id ID      the client, for its write checkpoints
  --upload FILE       changes to upload, one on a line
  --store FILE        keep what the client has in this file, a database of SQLite, for the next run

Example: powersync sync --connect 127.0.0.1:8080 --token-file token --client-id phone
";

/// The text for words that ask for help or for the version and for nothing else: `--help`, `-h` or `--version` alone, or a command's name and
/// `--help`. None for all other words.
pub(crate) fn help_for(words: &[Text]) -> Option<&'static str> {
    match words {
        [word] => help_of_all(word.as_str()),
        [command, word] if word.as_str() == "--help" => help_of(command.as_str()),
        _ => None,
    }
}

// The text for a single word.
fn help_of_all(word: &str) -> Option<&'static str> {
    match word {
        "--help" | "-h" => Some(COMMANDS),
        "--version" => Some(VERSION),
        _ => None,
    }
}

// The text of one command.
fn help_of(command: &str) -> Option<&'static str> {
    match command {
        "check" => Some(CHECK),
        "rows" => Some(ROWS),
        "replay" => Some(REPLAY),
        "compact" => Some(COMPACT),
        "token" => Some(TOKEN),
        "generate" => Some(GENERATE),
        "snapshot" => Some(SNAPSHOT),
        "audit" => Some(AUDIT),
        "serve" => Some(SERVE),
        "sync" => Some(SYNC),
        _ => None,
    }
}

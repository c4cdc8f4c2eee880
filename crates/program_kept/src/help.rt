//! What the program says of itself.

/// The answer to `--version`.
pub const VERSION: &str = "binlog-kept 0.1.0\n";

/// The answer to `--help`.
pub const HELP: &str =
    "usage: binlog-kept              the text of binlog-feed, on standard input\n       binlog-kept --json [FILE]   lines of binlog-changes json, of a file or on standard input\n\nPrints how many bytes of output, which may be truncated at any byte, its complete transactions have, the position to resume\nfrom, and with --json the name of the log. Without a complete transaction it prints 0 4.\n\n  --json     read JSON lines\n  --help     print this text\n  --version  print the version\n";

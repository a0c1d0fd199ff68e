// What `console --help` writes.
ghost use Rattle.std.specs.Prelude.{◌≡◌};
ghost use Rattle.console_streams.specs.Help.{is_help};

use std::io::Write;

// The texts that it writes, one after another.
const TEXTS: [&[u8]; 14] = [
    b"usage: console < SCRIPT\n\nReads forms from standard input, one a line, and replies to each on standard output.\n\n",
    b"  [name [host] id N]       registers the name id with the item N below the query host\n  [include [host] [q]]     the names of q, as they are now, at host\n",
    b"  [open m|n [host] [q]]    at host the names (m, as include) or the namespaces (n) of q\n  [alias key [host] [q]]   the names of q at key in host, in place of what was there\n",
    b"  [module l|u [q] path]    the module q of the file path, loaded (l) or not (u)\n  [find [q]]               the item of a name\n",
    b"  [complete [q]]           the names that q begins\n  [modules [q]]            the modules and namespaces that q begins\n\n",
    b"A query (host, q) is segments that each end in a dot, or nothing.\nN is an item: timer t5, port p5 or register r5, and 5 is r5; its number is at most 4294967295.\nThe last line may lack its line feed.\n\n",
    b"  [ok R]                   registered; R records are used\n  [found N], [none]        the item of the name, or that there is none\n",
    b"  [line L I [from] name]   a completion: bytes matched (-1 for none), item (m or n of modules), import, name\n  [end L T]                after L lines; T tries were entered\n",
    b"  [bad]                    no form, or over 2,048 bytes\n  [refused C]              nothing was changed:\n",
    b"      2 Malformed   a query does not end in a dot, or a byte is not allowed there\n      3 Empty       an empty id, key or segment; a look-up of no segment\n",
    b"      4 TooLong     a name over 31 bytes, over 17 segments, a path over 120 bytes\n      5 Crowded     a list would weigh over 96\n",
    b"      6 Deep        a root would have depth over 16\n      7 Full        over 1,365 records\n      8 TextFull    over 32,768 bytes of text\n",
    b"      9 Spent       the completion enters over 4,096 tries\n     10 Lines       over 512 lines, or over 32,768 bytes of their texts\n\n",
    b"A fault of standard input or output ends the program with a line on standard error, and status 0.\n",
];

// Whether an argument is `-h` or `--help`.
pub fn asked(arg: &[u8]) -> bool
    ensures { result ≡ is_help arg.now }
{
    arg == b"-h".as_slice() || arg == b"--help".as_slice()
}

// Writes it all; a text that cannot be written is left out.
pub fn print<W: Write>(to: &mut W) {
    for text in TEXTS {
        let _ = crate::put(to, text);
    }
}

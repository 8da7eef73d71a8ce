//! The help of the program and of each command.

/// Printed by `--help`.
pub const HELP: &str = "Usage: vers < LINES

Prints one line for each line of standard input that has a word. A load line replaces the current structure. Below each
load line are the queries of its structure:

bits 0110  (a bit vector)
    len, get I, rank0 I, rank1 I, select0 I, select1 I
sorted 4 4 9  (a sorted sequence)
    len, get I, rank V, predecessor V, successor V, delta I, iter
sparse 12 1 3 5  (a sparse bit vector: its length, then the positions of its ones)
    len, get I, rank0 I, rank1 I, select1 I, iter1
values 9 6 10  (an array)
    len, range_min I J (the leftmost minimum from I to J, both included)
tree 110100  (parentheses, a 1 opens and a 0 closes)
    size, root, is_balanced, excess I, fwd_search I R, bwd_search I R, close I, open I, enclose I, node_handle I,
    dfs_iter (R may have a minus)
the same, if balanced
    parent V, first_child V, last_child V, next_sibling V, previous_sibling V, children V, rev_children V,
    node_index V, is_leaf V, depth V, subtree_size V, is_ancestor V W, level_ancestor V N, level_next V, level_prev V,
    level_leftmost D, level_rightmost D, subtree_iter V, subtree_post_iter V, dfs_post_iter (a node is the position of
    its opening parenthesis)
symbols 3 1 5 3  (symbols: the bits of each, then the symbols)
    len, get_u64 I, rank_u64 I S, rank_range_u64 A B S, select_u64 I S, select_offset_u64 O I S, quantile_u64 A B I,
    range_min_u64 A B, range_max_u64 A B, range_median_u64 A B, predecessor_u64 A B S, successor_u64 A B S, iter_u64,
    iter_sorted_u64 (a range is from A to before B)
postings 2 7 5 3 9 3  (document ids and their costs, alternating)
    len, contains D, rank D, next D, cheapest A B (both included), intersect D ..
inverted 3 10 0 3 0 7 2 3  (an inverted index: how many terms and documents, then a document after each term)
    len, terms, universe, count T, get T I, rank T D, contains T D, next T D, documents T, and T U, or T U,
    without T U (the documents of term T that term U doesn't have)

Other answers: \"none\" if a query finds nothing, \"refused\" if a precondition fails, \"wrong structure\" if the current
structure has no such query, and \"bad line\" if the line does not parse. One or more spaces separate words.

Example: the list has 4 bits, and 2 ones precede position 3.

    printf 'bits 0110\\nrank1 3\\n' | vers

Commands:

    vers < LINES              answers lines
    vers text < LINES         answers lines about a text
    vers text FILE < LINES    answers lines about the text in FILE
    vers text index FILE INDEX    saves the index of the bytes of FILE to INDEX
    vers text index --fasta FILE INDEX    saves the index of the sequences of a FASTA file to INDEX
    vers save FILE < LINE     saves the structure of a load line to FILE
    vers ask FILE < LINES     answers lines about the structure in FILE
    vers show FILE            describes the structure in FILE
    vers --help, -h           prints this; after a command, prints the help of the command
    vers --version            prints the version of the library

Exit status: 0 if each line has its answer, which may be `bad line`, `refused` or `wrong structure`; 1 if reading,
writing or an allocation fails, or a file has no saved form; 2 for arguments that are no command.";

/// Printed by `text --help`.
pub const TEXT_HELP: &str = "Usage: vers text [FILE] < LINES
       vers text index [--fasta] FILE INDEX

Prints one line for each line of standard input that has a word. The text is that of the last line `text`, or of
FILE, which has its index.
`index` saves the index of the bytes of FILE to INDEX, which it replaces completely or not at all.
If FILE is /dev/stdin, it reads standard input.
With --fasta, FILE is a FASTA file. The text has the sequences, and each name between two line feeds.
In a name, the highest bit of each byte is set.

text K PATTERN
    replaces the text by the symbols of a pattern, of K bits each, and prints their number
len
    prints the number of symbols
count PATTERN
    prints the number of occurrences of a pattern
places PATTERN
    prints their positions, ascending
first N PATTERN
    prints the first N of them in the order of the suffixes there
extract A B
    prints the symbols from A to before B
piece A B
    prints them as a pattern
sites PATTERN
    prints NAME OFFSET for each occurrence in the sequences of a FASTA file

A pattern has numbers, bytes as 0x and two hexadecimal digits each, and texts in quotes: \"the end\" 0x0A 49.

Example: the pattern be occurs at positions 3 and 16.

    printf 'text 8 \"to be or not to be\"\\nplaces \"be\"\\n' | vers text";

/// Printed by `save --help`.
pub const SAVE_HELP: &str = "Usage: vers save FILE < LINE

Reads one load line, such as \"bits 0110\", and saves its structure to FILE, which it replaces completely or not at all.";

/// Printed by `ask --help`.
pub const ASK_HELP: &str = "Usage: vers ask FILE < LINES

Answers query lines, such as \"rank1 3\", about the structure in FILE, and load lines. FILE is not changed.";

/// Printed by `show --help`.
pub const SHOW_HELP: &str = "Usage: vers show FILE

Prints the kind of the structure in FILE, its length, the bits of an element or of a tree's blocks, and the bytes of
FILE.";

/// Printed by `--version`.
pub const VERSION: &str = "vers 0.31.0";

//! Sources of several expressions, and the places of their refusals.

pub const BODIES: &[(&str, &str)] = &[
    ("x = 2; x * 3", "(= x 2); (* x 3)"),
    ("\n1\n\n2\n", "1; 2"),
    (";1;2;", "1; 2"),
    ("1 2", "Syntax 0"),
    ("1; 2 3; 4 5", "Syntax 3"),
    ("1; 2; +", "Syntax 6"),
    ("1\n)", "Syntax 0"),
    ("1;)", "Syntax 2"),
    (";)", "Syntax 1"),
    ("\n  _", "Syntax 3"),
    ("1; (2; 3)", "Syntax 3"),
    ("1; if a do b; c", "Syntax 3"),
    ("1; if a do b; c end 2; 3", "Syntax 3"),
    ("1; end", "Syntax 3"),
    ("1; else", "Syntax 3"),
    ("1 end; 2", "Syntax 0"),
    ("1, 2", "Syntax 0"),
    ("1; \"a#{b; c}\"; d", "Syntax 3"),
    ("1; x = ; 2", "Syntax 3"),
    ("1 -> 2", "Syntax 0"),
    ("1; 2 -> 3", "Syntax 3"),
    ("1; a <- b", "Syntax 3"),
    ("é; 1 2", "Syntax 4"),
    ("1 # a\n2 # b", "1; 2"),
    ("1; # a\n # b\n 2 3", "Syntax 13"),
];

/// Which refusal stands where several could.
pub const REFUSALS: &[(&str, &str)] = &[
    ("1 +", "Syntax 0"),
    ("1 2", "Syntax 0"),
    ("1a", "BadNumber 0"),
    ("\"a", "OpenText 0"),
    ("170141183460469231731687303715884105728", "TooWide 0"),
    ("!a in b", "Syntax 0"),
    ("1; 2 3; 4 5", "Syntax 3"),
    ("1 2 &", "BadChar 4"),
    ("1 2; \"a\\q\"", "BadEscape 5"),
];

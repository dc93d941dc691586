//! The built-in calls and operators by their names.
ghost use Rattle.std.specs.Prelude.{◌≡◌};
ghost use Rattle.ex_prims.specs.Names.{binary_names, named_in, unary_names};

/// A built-in call or operator of one argument.
#[derive(Clone, Copy, Debug, PartialEq, Eq, Drop)]
pub enum Unary {
    /// `-i`.
    Negate,
    /// `+i`.
    Keep,
    /// `!v`.
    Not,
    /// `not v`.
    StrictNot,
    /// `abs(i)`.
    Absolute,
    /// `Integer.to_string(i)`.
    IntegerToString,
    /// `String.to_integer(s)`.
    StringToInteger,
    /// `length(l)` and `Enum.count(l)`.
    Length,
    /// `tuple_size(u)`.
    TupleSize,
    /// `byte_size(s)`.
    ByteSize,
    /// `hd(l)`.
    Head,
    /// `tl(l)`.
    Tail,
    /// `to_string(v)`.
    ToString,
    /// `inspect(v)`.
    Inspect,
    /// `is_integer(v)`.
    IsInteger,
    /// `is_atom(v)`.
    IsAtom,
    /// `is_binary(v)`.
    IsBinary,
    /// `is_list(v)`.
    IsList,
    /// `is_tuple(v)`.
    IsTuple,
    /// `is_boolean(v)`.
    IsBoolean,
    /// `is_nil(v)`.
    IsNil,
    /// `Enum.sum(l)`.
    Sum,
    /// `Enum.reverse(l)`.
    Reverse,
    /// `Enum.sort(l)`.
    Sort,
    /// `Enum.uniq(l)`.
    Unique,
    /// `Enum.with_index(l)`.
    WithIndex,
    /// `Enum.max(l)`.
    Greatest,
    /// `Enum.min(l)`.
    Least,
    /// `List.first(l)`.
    First,
    /// `List.last(l)`.
    Last,
    /// `List.to_tuple(l)`.
    ListToTuple,
    /// `Tuple.to_list(u)`.
    TupleToList,
    /// `IO.puts(v)`.
    Puts,
    /// `IO.inspect(v)`.
    Show,
    /// `Mix.install(v)`.
    Install,
}

/// A built-in call or operator of two arguments.
#[derive(Clone, Copy, Debug, PartialEq, Eq, Drop)]
pub enum Binary {
    /// `i + j`.
    Add,
    /// `i - j`.
    Subtract,
    /// `i * j`.
    Multiply,
    /// `l ++ m`.
    Append,
    /// `s <> t`.
    Concat,
    /// `v in l`.
    In,
    /// `v == w` and `v === w`.
    Equal,
    /// `v != w` and `v !== w`.
    NotEqual,
    /// `v < w`.
    Less,
    /// `v > w`.
    Greater,
    /// `v <= w`.
    LessOrEqual,
    /// `v >= w`.
    GreaterOrEqual,
    /// `max(v, w)`.
    Max,
    /// `min(v, w)`.
    Min,
    /// `div(i, j)`.
    Divide,
    /// `rem(i, j)`.
    Remainder,
    /// `Integer.mod(i, j)`.
    Modulo,
    /// `Integer.pow(i, j)`.
    Power,
    /// `elem(u, i)`.
    Element,
    /// `Enum.member?(l, v)`.
    HasMember,
    /// `Enum.at(l, i)`.
    At,
    /// `Enum.take(l, i)`.
    Take,
    /// `Enum.drop(l, i)`.
    Drop,
    /// `Enum.join(l, s)`.
    Join,
    /// `Enum.zip(l, m)`.
    Zip,
    /// `String.duplicate(s, i)`.
    Duplicate,
    /// `String.split(s, t)`.
    Split,
    /// `String.contains?(s, t)`.
    Contains,
    /// `String.starts_with?(s, t)`.
    StartsWith,
    /// `String.ends_with?(s, t)`.
    EndsWith,
    /// `Mix.install(v, w)`.
    Install,
}

/// What a name calls with one argument.
pub(crate) fn unary_named(name: &str) -> Option<Unary>
    ensures { result ≡ named_in unary_names name.now }
{
    match name {
        "-" => Some(Unary::Negate),
        "+" => Some(Unary::Keep),
        "!" => Some(Unary::Not),
        "not" => Some(Unary::StrictNot),
        "abs" => Some(Unary::Absolute),
        "Integer.to_string" => Some(Unary::IntegerToString),
        "String.to_integer" => Some(Unary::StringToInteger),
        "length" => Some(Unary::Length),
        "Enum.count" => Some(Unary::Length),
        "tuple_size" => Some(Unary::TupleSize),
        "byte_size" => Some(Unary::ByteSize),
        "hd" => Some(Unary::Head),
        "tl" => Some(Unary::Tail),
        "to_string" => Some(Unary::ToString),
        "inspect" => Some(Unary::Inspect),
        "is_integer" => Some(Unary::IsInteger),
        "is_atom" => Some(Unary::IsAtom),
        "is_binary" => Some(Unary::IsBinary),
        "is_list" => Some(Unary::IsList),
        "is_tuple" => Some(Unary::IsTuple),
        "is_boolean" => Some(Unary::IsBoolean),
        "is_nil" => Some(Unary::IsNil),
        "Enum.sum" => Some(Unary::Sum),
        "Enum.reverse" => Some(Unary::Reverse),
        "Enum.sort" => Some(Unary::Sort),
        "Enum.uniq" => Some(Unary::Unique),
        "Enum.with_index" => Some(Unary::WithIndex),
        "Enum.max" => Some(Unary::Greatest),
        "Enum.min" => Some(Unary::Least),
        "List.first" => Some(Unary::First),
        "List.last" => Some(Unary::Last),
        "List.to_tuple" => Some(Unary::ListToTuple),
        "Tuple.to_list" => Some(Unary::TupleToList),
        "IO.puts" => Some(Unary::Puts),
        "IO.inspect" => Some(Unary::Show),
        "Mix.install" => Some(Unary::Install),
        _ => None,
    }
}

/// What a name calls with two arguments.
pub(crate) fn binary_named(name: &str) -> Option<Binary>
    ensures { result ≡ named_in binary_names name.now }
{
    match name {
        "+" => Some(Binary::Add),
        "-" => Some(Binary::Subtract),
        "*" => Some(Binary::Multiply),
        "++" => Some(Binary::Append),
        "<>" => Some(Binary::Concat),
        "in" => Some(Binary::In),
        "==" => Some(Binary::Equal),
        "===" => Some(Binary::Equal),
        "!=" => Some(Binary::NotEqual),
        "!==" => Some(Binary::NotEqual),
        "<" => Some(Binary::Less),
        ">" => Some(Binary::Greater),
        "<=" => Some(Binary::LessOrEqual),
        ">=" => Some(Binary::GreaterOrEqual),
        "max" => Some(Binary::Max),
        "min" => Some(Binary::Min),
        "div" => Some(Binary::Divide),
        "rem" => Some(Binary::Remainder),
        "Integer.mod" => Some(Binary::Modulo),
        "Integer.pow" => Some(Binary::Power),
        "elem" => Some(Binary::Element),
        "Enum.member?" => Some(Binary::HasMember),
        "Enum.at" => Some(Binary::At),
        "Enum.take" => Some(Binary::Take),
        "Enum.drop" => Some(Binary::Drop),
        "Enum.join" => Some(Binary::Join),
        "Enum.zip" => Some(Binary::Zip),
        "String.duplicate" => Some(Binary::Duplicate),
        "String.split" => Some(Binary::Split),
        "String.contains?" => Some(Binary::Contains),
        "String.starts_with?" => Some(Binary::StartsWith),
        "String.ends_with?" => Some(Binary::EndsWith),
        "Mix.install" => Some(Binary::Install),
        _ => None,
    }
}

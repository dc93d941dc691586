//! Trees as texts: operators stand in front, in parentheses.
use ex_grammar::{Operator, Prefix, WordValue};
use ex_parser::{Ast, Choice, Clause, Head, Hole, Node, Part};
use std::alloc::Global;

/// The trees in one line, with `; ` between.
pub fn tree_text(alloc: Global, tree: &Ast) -> Option<String> {
    let mut texts = Vec::new(alloc);
    for node in tree.nodes.as_slice() {
        let text = node_text(alloc, node, texts.as_slice())?;
        texts.push(text).ok()?;
    }
    joined(alloc, tree.roots.as_slice(), "; ", texts.as_slice())
}

/// The text of a node, where those of its parts are known.
fn node_text(alloc: Global, node: &Node, texts: &[String]) -> Option<String> {
    match node {
        Node::Integer(n) => format!(in alloc; "{n}").ok(),
        Node::Atom(x) => two(alloc, ":", x.as_str()),
        Node::Constant(value) => two(alloc, "", constant_text(*value)),
        Node::Name(x) => two(alloc, "", x.as_str()),
        Node::Pinned(x) => two(alloc, "^", x.as_str()),
        Node::Text(says, holes) => holes_text(alloc, says.as_str(), holes.as_slice(), texts),
        Node::Tuple(items) => enclosed(alloc, "{", items.as_slice(), "}", texts),
        Node::List(items) => enclosed(alloc, "[", items.as_slice(), "]", texts),
        Node::ListThen(items, tail) => list_then(
            alloc,
            items.as_slice(),
            text_at(texts, *tail),
            texts,
        ),
        Node::Call(name, items) => called(alloc, name.as_str(), items.as_slice(), texts),
        Node::Match(a, b) => applied(alloc, "=", text_at(texts, *a), text_at(texts, *b)),
        Node::Apply(operator, a, b) => {
            applied(
                alloc,
                operator_text(*operator),
                text_at(texts, *a),
                text_at(texts, *b),
            )
        }
        Node::Prefixed(prefix, a) => prefixed(alloc, prefix_text(*prefix), text_at(texts, *a)),
        _ => block_text(alloc, node, texts),
    }
}

/// The text of a block, where those of its parts are known.
fn block_text(alloc: Global, node: &Node, texts: &[String]) -> Option<String> {
    match node {
        Node::If(a, body) => {
            let body = joined(alloc, body.as_slice(), "; ", texts)?;
            line(
                alloc,
                &["(if ", text_at(texts, *a), " do ", body.as_str(), ")"],
            )
        }
        Node::IfElse(a, body, other) => {
            let body = either(alloc, body.as_slice(), other.as_slice(), texts)?;
            line(
                alloc,
                &["(if ", text_at(texts, *a), " do ", body.as_str(), ")"],
            )
        }
        Node::Case(a, clauses) => case_text(alloc, text_at(texts, *a), clauses.as_slice(), texts),
        Node::Cond(choices) => cond_text(alloc, choices.as_slice(), texts),
        Node::For(head, body) => {
            let head = head_text(alloc, head, texts)?;
            let body = joined(alloc, body.as_slice(), "; ", texts)?;
            line(alloc, &["(for ", head.as_str(), " do ", body.as_str(), ")"])
        }
        _ => None,
    }
}

/// Texts one behind the other.
fn line(alloc: Global, parts: &[&str]) -> Option<String> {
    let mut line = String::new(alloc);
    for part in parts {
        line.push_str(*part).ok()?;
    }
    Some(line)
}

/// Two texts, the second behind the first.
fn two(alloc: Global, first: &str, second: &str) -> Option<String> {
    line(alloc, &[first, second])
}

/// An operator before a part.
fn prefixed(alloc: Global, prefix: &str, a: &str) -> Option<String> {
    line(alloc, &["(", prefix, " ", a, ")"])
}

/// An operator and its two sides.
fn applied(alloc: Global, operator: &str, a: &str, b: &str) -> Option<String> {
    line(alloc, &["(", operator, " ", a, " ", b, ")"])
}

/// The text of a part.
fn text_at(texts: &[String], at: usize) -> &str {
    match texts.get(at) {
        Some(text) => text.as_str(),
        None => "?",
    }
}

/// The texts of parts, with another between.
fn joined(alloc: Global, places: &[usize], between: &str, texts: &[String]) -> Option<String> {
    let mut line = String::new(alloc);
    let mut first = true;
    for place in places {
        if !first {
            line.push_str(between).ok()?;
        }
        first = false;
        line.push_str(text_at(texts, *place)).ok()?;
    }
    Some(line)
}

/// The texts of parts between two others.
fn enclosed(
    alloc: Global,
    before: &str,
    places: &[usize],
    after: &str,
    texts: &[String],
) -> Option<String> {
    let items = joined(alloc, places, " ", texts)?;
    line(alloc, &[before, items.as_str(), after])
}

/// A list with what follows its items.
fn list_then(alloc: Global, items: &[usize], tail: &str, texts: &[String]) -> Option<String> {
    let items = joined(alloc, items, " ", texts)?;
    line(alloc, &["[", items.as_str(), "|", tail, "]"])
}

/// A call with its arguments.
fn called(alloc: Global, name: &str, items: &[usize], texts: &[String]) -> Option<String> {
    let items = enclosed(alloc, "(", items, ")", texts)?;
    two(alloc, name, items.as_str())
}

/// The two bodies of an `if`.
fn either(alloc: Global, body: &[usize], other: &[usize], texts: &[String]) -> Option<String> {
    let body = joined(alloc, body, "; ", texts)?;
    let other = joined(alloc, other, "; ", texts)?;
    line(alloc, &[body.as_str(), " else ", other.as_str()])
}

fn holes_text(alloc: Global, says: &str, holes: &[Hole], texts: &[String]) -> Option<String> {
    let mut text = line(alloc, &["\"", says])?;
    for hole in holes {
        text.push_str("#{").ok()?;
        text.push_str(text_at(texts, hole.tree)).ok()?;
        text.push_str("}").ok()?;
        text.push_str(hole.says.as_str()).ok()?;
    }
    text.push_str("\"").ok()?;
    Some(text)
}

/// Puts what leads to a body behind a text.
fn push_arm(
    alloc: Global,
    text: &mut String,
    first: &str,
    body: &[usize],
    texts: &[String],
) -> Option<()> {
    let body = joined(alloc, body, "; ", texts)?;
    let arm = line(alloc, &[" | ", first, " -> ", body.as_str()])?;
    text.push_str(arm.as_str()).ok()
}

fn case_text(alloc: Global, of: &str, clauses: &[Clause], texts: &[String]) -> Option<String> {
    let mut text = line(alloc, &["(case ", of])?;
    for clause in clauses {
        let pattern = text_at(texts, clause.pattern);
        push_arm(alloc, &mut text, pattern, clause.body.as_slice(), texts)?;
    }
    text.push_str(")").ok()?;
    Some(text)
}

fn cond_text(alloc: Global, choices: &[Choice], texts: &[String]) -> Option<String> {
    let mut text = line(alloc, &["(cond"])?;
    for choice in choices {
        let condition = text_at(texts, choice.condition);
        push_arm(alloc, &mut text, condition, choice.body.as_slice(), texts)?;
    }
    text.push_str(")").ok()?;
    Some(text)
}

fn part_text(alloc: Global, part: Part, texts: &[String]) -> Option<String> {
    match part {
        Part::Generator(pattern, source) => {
            line(
                alloc,
                &[
                    ", ",
                    text_at(texts, pattern),
                    " <- ",
                    text_at(texts, source),
                ],
            )
        }
        Part::Filter(filter) => line(alloc, &[", ", text_at(texts, filter)]),
    }
}

fn head_text(alloc: Global, head: &Head, texts: &[String]) -> Option<String> {
    let pattern = text_at(texts, head.pattern);
    let mut text = line(alloc, &[pattern, " <- ", text_at(texts, head.source)])?;
    for part in head.parts.as_slice() {
        let part = part_text(alloc, *part, texts)?;
        text.push_str(part.as_str()).ok()?;
    }
    Some(text)
}

fn constant_text(value: WordValue) -> &'static str {
    match value {
        WordValue::True => "true",
        WordValue::False => "false",
        WordValue::Nil => "nil",
    }
}

fn operator_text(operator: Operator) -> &'static str {
    match operator {
        Operator::Or => "||",
        Operator::StrictOr => "or",
        Operator::And => "&&",
        Operator::StrictAnd => "and",
        Operator::Equal => "==",
        Operator::NotEqual => "!=",
        Operator::StrictEqual => "===",
        Operator::StrictNotEqual => "!==",
        Operator::Less => "<",
        Operator::Greater => ">",
        Operator::LessOrEqual => "<=",
        Operator::GreaterOrEqual => ">=",
        Operator::Member => "in",
        Operator::Join => "++",
        Operator::Concat => "<>",
        Operator::Add => "+",
        Operator::Subtract => "-",
        Operator::Multiply => "*",
    }
}

fn prefix_text(prefix: Prefix) -> &'static str {
    match prefix {
        Prefix::Negate => "-",
        Prefix::Keep => "+",
        Prefix::Not => "!",
        Prefix::StrictNot => "not",
    }
}

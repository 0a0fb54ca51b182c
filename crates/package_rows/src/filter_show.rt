// Filters and formulas as they are shown: the name of each form, and its parts between parentheses.
use opam_filter::{Braces, Filter, Formula, Reduced, RelOp, Test, Truth, Var};
use row_script::fault::Fault;
use row_script::show::push_quoted;

pub fn sign(op: RelOp) -> &'static str {
    match op {
        RelOp::Eq => "=",
        RelOp::Ne => "!=",
        RelOp::Lt => "<",
        RelOp::Le => "<=",
        RelOp::Gt => ">",
        RelOp::Ge => ">=",
    }
}

pub fn truth_word(truth: Truth) -> &'static str {
    match truth {
        Truth::Yes => "yes",
        Truth::No => "no",
        Truth::Undefined => "undefined",
    }
}

pub fn push_var(text: &mut String, var: &Var) -> Result<(), Fault> {
    if let Some(scope) = &var.scope {
        text.push_str(scope.as_str())?;
        text.push_str(":")?;
    }
    Ok(text.push_str(var.name.as_str())?)
}

#[cycle(filter)]
pub fn push_filter(text: &mut String, filter: &Filter) -> Result<(), Fault> {
    match filter {
        Filter::Flag(flag) => Ok(text.push_str(if *flag { "true" } else { "false" })?),
        Filter::Text(inner) => push_quoted(text, inner.as_str().as_bytes()),
        Filter::Var(var) => push_var(text, var),
        Filter::Rel(op, left, right) => {
            push_filter(text, left.get())?;
            text.push_str(" ")?;
            text.push_str(sign(*op))?;
            text.push_str(" ")?;
            push_filter(text, right.get())
        }
        Filter::Not(part) => {
            text.push_str("!")?;
            push_filter(text, part.get())
        }
        Filter::Defined(part) => {
            text.push_str("?")?;
            push_filter(text, part.get())
        }
        Filter::And(parts) => push_filters(text, "and", parts.as_slice()),
        Filter::Or(parts) => push_filters(text, "or", parts.as_slice()),
    }
}

#[cycle(filter)]
fn push_filters(text: &mut String, name: &str, parts: &[Filter]) -> Result<(), Fault> {
    text.push_str(name)?;
    text.push_str("(")?;
    let mut later = false;
    for part in parts {
        if later {
            text.push_str("; ")?;
        }
        push_filter(text, part)?;
        later = true;
    }
    Ok(text.push_str(")")?)
}

#[cycle(braces)]
fn push_braces(text: &mut String, braces: &Braces) -> Result<(), Fault> {
    match braces {
        Braces::Filter(filter) => push_filter(text, filter),
        Braces::Version(op, right) => {
            text.push_str(sign(*op))?;
            text.push_str(" ")?;
            push_filter(text, right)
        }
        Braces::And(parts) => push_all_braces(text, "and", parts.as_slice()),
        Braces::Or(parts) => push_all_braces(text, "or", parts.as_slice()),
    }
}

#[cycle(braces)]
fn push_all_braces(text: &mut String, name: &str, parts: &[Braces]) -> Result<(), Fault> {
    text.push_str(name)?;
    text.push_str("(")?;
    let mut later = false;
    for part in parts {
        if later {
            text.push_str("; ")?;
        }
        push_braces(text, part)?;
        later = true;
    }
    Ok(text.push_str(")")?)
}

#[cycle(formula)]
pub fn push_formula(text: &mut String, formula: &Formula) -> Result<(), Fault> {
    match formula {
        Formula::Atom { name, braces } => {
            text.push_str(name.as_str())?;
            text.push_str("{")?;
            push_braces(text, braces)?;
            Ok(text.push_str("}")?)
        }
        Formula::And(parts) => push_formulas(text, "and", parts.as_slice()),
        Formula::Or(parts) => push_formulas(text, "or", parts.as_slice()),
    }
}

#[cycle(formula)]
fn push_formulas(text: &mut String, name: &str, parts: &[Formula]) -> Result<(), Fault> {
    text.push_str(name)?;
    text.push_str("(")?;
    let mut later = false;
    for part in parts {
        if later {
            text.push_str("; ")?;
        }
        push_formula(text, part)?;
        later = true;
    }
    Ok(text.push_str(")")?)
}

#[cycle(showing)]
fn push_test(text: &mut String, test: &Test) -> Result<(), Fault> {
    match test {
        Test::Known(truth) => Ok(text.push_str(truth_word(*truth))?),
        Test::Version(op, right) => {
            text.push_str(sign(*op))?;
            text.push_str(" ")?;
            match right {
                Some(version) => push_quoted(text, version.as_str().as_bytes()),
                None => Ok(text.push_str("undefined")?),
            }
        }
        Test::And(parts) => push_tests(text, "and", parts.as_slice()),
        Test::Or(parts) => push_tests(text, "or", parts.as_slice()),
    }
}

#[cycle(showing)]
fn push_tests(text: &mut String, name: &str, parts: &[Test]) -> Result<(), Fault> {
    text.push_str(name)?;
    text.push_str("(")?;
    let mut later = false;
    for part in parts {
        if later {
            text.push_str("; ")?;
        }
        push_test(text, part)?;
        later = true;
    }
    Ok(text.push_str(")")?)
}

#[cycle(reduced)]
pub fn push_reduced(text: &mut String, reduced: &Reduced) -> Result<(), Fault> {
    match reduced {
        Reduced::Dropped => Ok(text.push_str("dropped")?),
        Reduced::Atom { name, test } => {
            text.push_str(name.as_str())?;
            text.push_str("{")?;
            push_test(text, test)?;
            Ok(text.push_str("}")?)
        }
        Reduced::And(parts) => push_all_reduced(text, "and", parts.as_slice()),
        Reduced::Or(parts) => push_all_reduced(text, "or", parts.as_slice()),
    }
}

#[cycle(reduced)]
fn push_all_reduced(text: &mut String, name: &str, parts: &[Reduced]) -> Result<(), Fault> {
    text.push_str(name)?;
    text.push_str("(")?;
    let mut later = false;
    for part in parts {
        if later {
            text.push_str("; ")?;
        }
        push_reduced(text, part)?;
        later = true;
    }
    Ok(text.push_str(")")?)
}

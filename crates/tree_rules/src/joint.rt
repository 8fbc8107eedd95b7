/// How a sign continues the expression before it (Language Guide, "Operator precedence").
#[derive(Clone, Copy)]
pub enum Joint {
    /// An operator of this level that groups to the left.
    Left(usize),
    /// A comparison of a chain.
    Compare,
    /// `?`
    Question,
    /// `=`, or an operator with `=`.
    Assign,
    /// `++` or `--`
    Step,
    /// `[`
    Bracket,
    /// `{`
    Brace,
    /// `(`, which only a name has before it.
    Parenthesis,
    /// `:`
    Colon,
    /// It doesn't.
    Nothing,
}

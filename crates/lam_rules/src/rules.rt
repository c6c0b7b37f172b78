//! The names of the rules, and the dialects.

ghost use Rattle.std.specs.Prelude.{◌≡◌};

/// The dialect of the language, which determines the subtyping rules.
#[derive(Clone, Copy, Debug, PartialEq, Eq)]
pub enum Dialect {
    /// The rules of TAPL 15.2.
    One,
    /// These, and `Bool <: Nat`, the axiom mentioned in TAPL 15.5.
    Two,
}

/// A subtyping rule of TAPL figures 15-1 and 15-3, or the axiom of section 15.5.
#[derive(Clone, Copy, Debug, PartialEq, Eq)]
pub enum SubRule {
    Refl,
    Trans,
    Top,
    Arrow,
    RcdWidth,
    RcdDepth,
    RcdPerm,
    BoolNat,
}

impl SubRule {
    ghost use Rattle.lam_rules.specs.Rules.{name_of_sub_rule};

    /// Returns the name of the rule as in TAPL, such as `S-Refl`. The axiom of 15.5, which has no name there, is
    /// `S-BoolNat`.
    pub fn name(self) -> &'static str
        ensures { result.now ≡ name_of_sub_rule self }
    {
        match self {
            SubRule::Refl => "S-Refl",
            SubRule::Trans => "S-Trans",
            SubRule::Top => "S-Top",
            SubRule::Arrow => "S-Arrow",
            SubRule::RcdWidth => "S-RcdWidth",
            SubRule::RcdDepth => "S-RcdDepth",
            SubRule::RcdPerm => "S-RcdPerm",
            SubRule::BoolNat => "S-BoolNat",
        }
    }
}

/// A typing rule of TAPL chapters 8, 9, 11 and 15. `Num` is specific to this project, and replaces T-Zero.
#[derive(Clone, Copy, Debug, PartialEq, Eq)]
pub enum TypeRule {
    True,
    False,
    If,
    Num,
    Succ,
    Pred,
    IsZero,
    Var,
    Abs,
    App,
    Unit,
    Ascribe,
    Let,
    Rcd,
    Proj,
    Fix,
    Sub,
}

impl TypeRule {
    ghost use Rattle.lam_rules.specs.Rules.{name_of_type_rule};

    /// Returns the name of the rule as TAPL writes it, such as `T-Abs`. `T-Num` is specific to this project.
    pub fn name(self) -> &'static str
        ensures { result.now ≡ name_of_type_rule self }
    {
        match self {
            TypeRule::True => "T-True",
            TypeRule::False => "T-False",
            TypeRule::If => "T-If",
            TypeRule::Num => "T-Num",
            TypeRule::Succ => "T-Succ",
            TypeRule::Pred => "T-Pred",
            TypeRule::IsZero => "T-IsZero",
            TypeRule::Var => "T-Var",
            TypeRule::Abs => "T-Abs",
            TypeRule::App => "T-App",
            TypeRule::Unit => "T-Unit",
            TypeRule::Ascribe => "T-Ascribe",
            TypeRule::Let => "T-Let",
            TypeRule::Rcd => "T-Rcd",
            TypeRule::Proj => "T-Proj",
            TypeRule::Fix => "T-Fix",
            TypeRule::Sub => "T-Sub",
        }
    }
}

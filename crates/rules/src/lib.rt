#![tactic(auto)]

ghost use Rattle.std.specs.Prelude.{ℕ, ◌<◌, ◌≡◌, List, IfSome};
ghost use Rattle.model.specs.Names.{Name, starts_with};
ghost use Rattle.model.specs.Summaries.{is_ambient_refinement, ambient_refinement_payload, has_eq, maybe_add_ambient, summarize_kind, rule_number};
ghost use Rattle.terms.specs.Rows.{groups_at};
ghost use Rattle.rules.specs.Read.{terms, name_numbered, IsFact, Rule, ChosenFor, RuledAs};
ghost use Rattle.rules.specs.Views.{is_call_at, is_head_at, is_op_at, call_one_at, call_two_at, op_two_at, row_count, row_argument};
ghost use Rattle.rules.specs.Choices.{choose_1, choose_2, choose_3, choose_4, choose_5, choose_6, choose_7, choose_8, choose_9, choose_10, choose_11, token_choice, ambient_choice, ambient_number, kind_choice, Within};

pub mod tables;

use tables::TermTables;

// Where the disjuncts of a fact's trigger names come from.
#[derive(Clone, Copy)]
pub enum Choice {
    // One disjunct: the free names of a term.
    One(usize),
    // Two disjuncts: the free names of two terms.
    Two(usize, usize),
    // The triggers of a term.
    Groups(usize),
    // The triggers of a refinement's payload; without any, or with one empty set, the fact is an ambient root.
    Refinement(usize),
    // The name of a token, by its number, and the name that it trims to.
    Token(usize),
    // No disjunct.
    Nothing,
    // The triggers of each part of an `and`.
    Parts(usize),
    // The fact is dropped.
    Drop,
    // The fact is ambient, and no root.
    Ambient,
}

// What becomes of a fact: the number of the rule that says it, 0 where its own triggers do, and the choice.
// The number is 0 and no `None`, as `rule_number` of `model` has it and the program prints it.
#[derive(Clone, Copy)]
struct Ruled {
    rule: usize,
    choice: Choice,
}

// Head codes of the names that the rules know: numbers, as the words of the name table hold them.
const HAS_TYPE: usize = 3;

const VALID: usize = 6;

const APPLY_TT: usize = 7;

const SQUASH: usize = 20;

const HAS_EQ: usize = 21;

const IS_TOT_FUN: usize = 22;

const IS_TM_ARROW: usize = 23;

const TERM_CONSTR_ID: usize = 24;

const PARTIAL_APP: usize = 25;

// Numbers of the op words, as the words of the term table hold them.
const TRUE: usize = 0;

const IFF: usize = 1;

const EQ: usize = 2;

const AND: usize = 3;

impl TermTables<'_> {
    // How many references a row has.
    #[tactic(auto, unfolding(crate::specs::Views::row_count))]
    fn count(&self, t: usize) -> usize
        requires { t < self.now.many }
        ensures { result ≡ row_count self.now.rows.now self.now.used self.now.many t }
    {
        terms::end(self.rows, self.used, self.many, t) - terms::start(self.rows, t)
    }

    // The i-th term that a row names.
    #[tactic(auto, unfolding(crate::specs::Views::row_count, crate::specs::Views::row_argument))]
    fn nth(&self, t: usize, i: usize) -> usize
        requires { (t < self.now.many) × (i < row_count self.now.rows.now self.now.used self.now.many t) }
        ensures argument { result ≡ row_argument self.now.refs.now self.now.rows.now t i }
        ensures within { result < self.now.many }
    {
        let a = terms::start(self.rows, t);
        terms::reference(self.refs, a + i)
    }

    // Whether a row is a call of the name with this head code.
    #[tactic(auto, unfolding(crate::specs::Views::is_call_at, terms::specs::Rows::has_head))]
    fn is_call(&self, t: usize, code: usize) -> bool
        requires { t < self.now.many }
        ensures { result ≡ is_call_at self.now.names.now self.now.rows.now t code }
    {
        if terms::kind(self.rows, t) != terms::CALL {
            return false;
        }
        let n = terms::head(self.rows, t);
        names::code_at(self.names, n) == code
    }

    // Whether a row is a `free` or a call of the name with this head code.
    #[tactic(auto, unfolding(crate::specs::Views::is_head_at))]
    fn is_head(&self, t: usize, code: usize) -> bool
        requires { t < self.now.many }
        ensures { result ≡ is_head_at self.now.names.now self.now.rows.now t code }
    {
        if !terms::has_head(self.rows, t) {
            return false;
        }
        let n = terms::head(self.rows, t);
        names::code_at(self.names, n) == code
    }

    // Whether a row is an `op` of the word with this number.
    #[tactic(auto, unfolding(crate::specs::Views::is_op_at))]
    fn is_op(&self, t: usize, op: usize) -> bool
        requires { t < self.now.many }
        ensures { result ≡ is_op_at self.now.rows.now t op }
    {
        if terms::kind(self.rows, t) != terms::OP {
            return false;
        }
        terms::op(self.rows, t) == op
    }

    // The argument of a call of the name with this head code, of one. Apart from `call_two` and `op_two`: as one they would
    // take the test and the count as parameters and answer a list.
    #[tactic(auto, unfolding(crate::specs::Views::call_one_at))]
    fn call_one(&self, t: usize, code: usize) -> Option<usize>
        requires { t < self.now.many }
        ensures found { result ≡ call_one_at self.now.names.now self.now.refs.now self.now.rows.now self.now.used self.now.many t code }
        ensures within { IfSome result (λ u. u < self.now.many) }
    {
        if !self.is_call(t, code) {
            return None;
        }
        if self.count(t) != 1 {
            return None;
        }
        Some(self.nth(t, 0))
    }

    // The arguments of a call of the name with this head code, of two.
    #[tactic(auto, unfolding(crate::specs::Views::call_two_at))]
    fn call_two(&self, t: usize, code: usize) -> Option<(usize, usize)>
        requires { t < self.now.many }
        ensures found { result ≡ call_two_at self.now.names.now self.now.refs.now self.now.rows.now self.now.used self.now.many t code }
        ensures within { IfSome result (λ p. (p.0 < self.now.many) × (p.1 < self.now.many)) }
    {
        if !self.is_call(t, code) {
            return None;
        }
        let size = self.count(t);
        if size != 2 {
            return None;
        }
        let first = self.nth(t, 0);
        let second = self.nth(t, 1);
        Some((first, second))
    }

    // The arguments of an `op` of the word with this number, of two.
    #[tactic(auto, unfolding(crate::specs::Views::op_two_at))]
    fn op_two(&self, t: usize, op: usize) -> Option<(usize, usize)>
        requires { t < self.now.many }
        ensures found { result ≡ op_two_at self.now.refs.now self.now.rows.now self.now.used self.now.many t op }
        ensures within { IfSome result (λ p. (p.0 < self.now.many) × (p.1 < self.now.many)) }
    {
        if !self.is_op(t, op) {
            return None;
        }
        if self.count(t) != 2 {
            return None;
        }
        let first = self.nth(t, 0);
        let second = self.nth(t, 1);
        Some((first, second))
    }

    // Whether the name of a number begins with a prefix.
    #[tactic(auto, unfolding(names::specs::Table::name_of))]
    fn name_starts(&self, n: usize, prefix: &[u8]) -> bool
        requires { n < self.now.named }
        ensures { result ≡ starts_with (name_numbered self.now n) prefix.now }
    {
        let a = words::at(self.names, n);
        let e = a + words::at(self.names, names::LENGTH + n);
        text::starts_with(self.file, a, e, prefix)
    }

    // `is_ambient_refinement`: a squash, or a refinement by its name.
    fn is_ambient_refinement(&self, ty: usize) -> bool
        requires { ty < self.now.many }
        ensures { result ≡ is_ambient_refinement (terms self.now) ty }
    {
        if self.is_call(ty, SQUASH) {
            return true;
        }
        if !terms::has_head(self.rows, ty) {
            return false;
        }
        let n = terms::head(self.rows, ty);
        self.name_starts(n, b"Tm_refine_")
    }

    // `ambient_refinement_payload`: the second argument of a squash of two, else the type.
    fn ambient_refinement_payload(&self, ty: usize) -> usize
        requires { ty < self.now.many }
        ensures payload { result ≡ ambient_refinement_payload
            (terms self.now) ty }
        ensures within { result < self.now.many }
    {
        let Some((_, payload)) = self.call_two(ty, SQUASH) else {
            return ty;
        };
        payload
    }

    // The token of a partial application: the name of a `free` or of a call of none.
    fn token(&self, t: usize) -> Choice
        requires { t < self.now.many }
        ensures token { result ≡ token_choice (terms self.now) self.now.rows.now t }
        ensures within { Within self.now.named self.now.many result }
    {
        let kind = terms::kind(self.rows, t);
        if kind == terms::FREE {
            return Choice::Token(terms::head(self.rows, t));
        }
        if kind != terms::CALL {
            return Choice::Nothing;
        }
        if self.count(t) != 0 {
            return Choice::Nothing;
        }
        Choice::Token(terms::head(self.rows, t))
    }

    // The second argument of the hasEq of two in a Valid of one.
    fn has_eq(&self, t: usize) -> Option<usize>
        requires { t < self.now.many }
        ensures argument { result ≡ has_eq (terms self.now) t }
        ensures within { IfSome result (λ u. u < self.now.many) }
    {
        let valid = self.call_one(t, VALID)?;
        let (_, ty) = self.call_two(valid, HAS_EQ)?;
        Some(ty)
    }

    // (1) `iff` of two, fact name starting l_quant_interp: {left}.
    #[tactic(auto, unfolding(crate::specs::Choices::choose_1, crate::specs::Choices::Within, model::specs::Summaries::at, model::specs::Names::bytes, model::specs::Lists::when))]
    fn rule_1(&self, name: usize, t: usize) -> Option<Choice>
        requires { IsFact self.now name t }
        ensures { Rule choose_1 self.now name t result }
    {
        let (left, _) = self.op_two(t, IFF)?;
        if !self.name_starts(name, b"l_quant_interp") {
            return None;
        }
        Some(Choice::One(left))
    }

    // (2) Name starting assumption_: {whole term}.
    #[tactic(auto, unfolding(crate::specs::Choices::choose_2, crate::specs::Choices::Within, model::specs::Names::bytes, model::specs::Lists::when))]
    fn rule_2(&self, name: usize, t: usize) -> Option<Choice>
        requires { IsFact self.now name t }
        ensures { Rule choose_2 self.now name t result }
    {
        if !self.name_starts(name, b"assumption_") {
            return None;
        }
        Some(Choice::One(t))
    }

    // (3) HasType of two, type a squash or a refinement: the triggers of the payload, or ambient root.
    fn rule_3(&self, name: usize, t: usize) -> Option<Choice>
        requires { IsFact self.now name t }
        ensures { Rule choose_3 self.now name t result }
    {
        let (_, ty) = self.call_two(t, HAS_TYPE)?;
        if !self.is_ambient_refinement(ty) {
            return None;
        }
        Some(Choice::Refinement(self.ambient_refinement_payload(ty)))
    }

    // (4) Valid of ApplyTT of __uu__PartialApp and a token: {token}, {token less @tok}; no token, no disjunct.
    fn rule_4(&self, name: usize, t: usize) -> Option<Choice>
        requires { IsFact self.now name t }
        ensures { Rule choose_4 self.now name t result }
    {
        let applied = self.call_one(t, VALID)?;
        let (function, argument) = self.call_two(applied, APPLY_TT)?;
        if !self.is_head(function, PARTIAL_APP) {
            return None;
        }
        Some(self.token(argument))
    }

    // (5) Valid, IsTotFun, is-Tm_arrow of one, HasType of two: {first}.
    fn rule_5(&self, name: usize, t: usize) -> Option<Choice>
        requires { IsFact self.now name t }
        ensures { Rule choose_5 self.now name t result }
    {
        if let Some(first) = self.call_one(t, VALID) {
            return Some(Choice::One(first));
        }
        if let Some((first, _)) = self.call_two(t, HAS_TYPE) {
            return Some(Choice::One(first));
        }
        if let Some(first) = self.call_one(t, IS_TOT_FUN) {
            return Some(Choice::One(first));
        }
        if let Some(first) = self.call_one(t, IS_TM_ARROW) {
            return Some(Choice::One(first));
        }
        None
    }

    // (6) `eq` of two whose right is Term_constr_id of one: {its argument}.
    fn rule_6(&self, name: usize, t: usize) -> Option<Choice>
        requires { IsFact self.now name t }
        ensures { Rule choose_6 self.now name t result }
    {
        let (_, right) = self.op_two(t, EQ)?;
        let argument = self.call_one(right, TERM_CONSTR_ID)?;
        Some(Choice::One(argument))
    }

    // (7) `and`: all triggers of its parts.
    fn rule_7(&self, name: usize, t: usize) -> Option<Choice>
        requires { IsFact self.now name t }
        ensures { Rule choose_7 self.now name t result }
    {
        if !self.is_op(t, AND) {
            return None;
        }
        Some(Choice::Parts(t))
    }

    // (8) `eq` of two, name starting equation_: {left}.
    #[tactic(auto, unfolding(crate::specs::Choices::choose_8, crate::specs::Choices::Within, model::specs::Summaries::at, model::specs::Names::bytes, model::specs::Lists::when))]
    fn rule_8(&self, name: usize, t: usize) -> Option<Choice>
        requires { IsFact self.now name t }
        ensures { Rule choose_8 self.now name t result }
    {
        let (left, _) = self.op_two(t, EQ)?;
        if !self.name_starts(name, b"equation_") {
            return None;
        }
        Some(Choice::One(left))
    }

    // (9) `iff` of two: hasEq on both sides gives {left's second argument}; else {left}, {right}.
    fn rule_9(&self, name: usize, t: usize) -> Option<Choice>
        requires { IsFact self.now name t }
        ensures { Rule choose_9 self.now name t result }
    {
        let (left, right) = self.op_two(t, IFF)?;
        let Some(ty) = self.has_eq(left) else {
            return Some(Choice::Two(left, right));
        };
        let Some(_) = self.has_eq(right) else {
            return Some(Choice::Two(left, right));
        };
        Some(Choice::One(ty))
    }

    // (10) `eq` of two: {left}, {right}.
    fn rule_10(&self, name: usize, t: usize) -> Option<Choice>
        requires { IsFact self.now name t }
        ensures { Rule choose_10 self.now name t result }
    {
        let (left, right) = self.op_two(t, EQ)?;
        Some(Choice::Two(left, right))
    }

    // (11) `true`: drop.
    fn rule_11(&self, name: usize, t: usize) -> Option<Choice>
        requires { IsFact self.now name t }
        ensures { Rule choose_11 self.now name t result }
    {
        if !self.is_op(t, TRUE) {
            return None;
        }
        Some(Choice::Drop)
    }

    // `maybe_add_ambient`: the first of the twelve rules that holds. The term has no triggers.
    fn maybe_add_ambient(&self, name: usize, t: usize) -> Ruled
        requires { IsFact self.now name t
            × (groups_at self.now.rows.now t ≡ 0) }
        ensures { RuledAs ambient_choice maybe_add_ambient ambient_number self.now name t result }
    {
        if let Some(chosen) = self.rule_1(name, t) {
            return Ruled {
                rule: 1,
                choice: chosen,
            };
        }
        if let Some(chosen) = self.rule_2(name, t) {
            return Ruled {
                rule: 2,
                choice: chosen,
            };
        }
        if let Some(chosen) = self.rule_3(name, t) {
            return Ruled {
                rule: 3,
                choice: chosen,
            };
        }
        if let Some(chosen) = self.rule_4(name, t) {
            return Ruled {
                rule: 4,
                choice: chosen,
            };
        }
        if let Some(chosen) = self.rule_5(name, t) {
            return Ruled {
                rule: 5,
                choice: chosen,
            };
        }
        if let Some(chosen) = self.rule_6(name, t) {
            return Ruled {
                rule: 6,
                choice: chosen,
            };
        }
        if let Some(chosen) = self.rule_7(name, t) {
            return Ruled {
                rule: 7,
                choice: chosen,
            };
        }
        if let Some(chosen) = self.rule_8(name, t) {
            return Ruled {
                rule: 8,
                choice: chosen,
            };
        }
        if let Some(chosen) = self.rule_9(name, t) {
            return Ruled {
                rule: 9,
                choice: chosen,
            };
        }
        if let Some(chosen) = self.rule_10(name, t) {
            return Ruled {
                rule: 10,
                choice: chosen,
            };
        }
        if let Some(chosen) = self.rule_11(name, t) {
            return Ruled {
                rule: 11,
                choice: chosen,
            };
        }
        Ruled {
            rule: 12,
            choice: Choice::Ambient,
        }
    }

    // What becomes of a fact, of its name and term: by its triggers if it has any, else by the twelve rules.
    fn choose_rule(&self, name: usize, t: usize) -> Ruled
        requires { IsFact self.now name t }
        ensures { RuledAs kind_choice summarize_kind rule_number self.now name t result }
    {
        if terms::group_count(self.rows, t) == 0 {
            return self.maybe_add_ambient(name, t);
        }
        Ruled {
            rule: 0,
            choice: Choice::Groups(t),
        }
    }

    // The kind of a fact.
    pub fn summarize_kind(&self, name: usize, t: usize) -> Choice
        requires { IsFact self.now name t }
        ensures { ChosenFor kind_choice summarize_kind self.now name t result }
    {
        let ruled = self.choose_rule(name, t);
        ruled.choice
    }

    // The number of the rule that gives a fact its kind, 0 where its own triggers do.
    pub fn rule_of(&self, name: usize, t: usize) -> usize
        requires { IsFact self.now name t }
        ensures { (exclude : List Name) → result ≡ rule_number exclude (terms self.now) (name_numbered self.now name) t }
    {
        let ruled = self.choose_rule(name, t);
        ruled.rule
    }
}

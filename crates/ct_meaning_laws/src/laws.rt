//! Laws of the meaning of calls.

ghost use Rattle.std.specs.Prelude.{◌≡◌, ℕ, suc, ◌+◌, ◌-◌, ◌<◌, ◌≤◌, List, [], true, Option, Some, None};
ghost use Rattle.ct_base.specs.declared.faults.FaultKind.TheVariants.{CallDepth, StepBudget};
ghost use Rattle.ct_report.specs.declared.logs.Verdict.{Verdict};
ghost use Rattle.ct_core.specs.declared.trees.CoreExpression.{CoreExpression};
ghost use Rattle.ct_core.specs.declared.trees.CoreStatement.{CoreStatement};
ghost use Rattle.ct_core.specs.declared.values.Value.{Value};
ghost use Rattle.ct_meaning.specs.declared.state.State.{State};
ghost use Rattle.ct_meaning.specs.Doing.{onwards};
ghost use Rattle.ct_meaning.specs.World.{World, Where, Target};
ghost use Rattle.ct_meaning.specs.Rules.{failed, with_test};
ghost use Rattle.ct_meaning.specs.Meaning.{Calls, Evaluates, Executes, body_of, calls, enter, expression, holds, statement, then_go, turns};
ghost use Rattle.ct_meaning.specs.Program.{left_in};
ghost use Rattle.ct_meaning.specs.Written.{Test, phase, phases_state};
ghost use Rattle.ct_meaning_laws.specs.Laws.{SameCalls, SameTest, verdict_of};

/// Any two numbers that are above what is left by more than one give calls the same meaning: the
/// number that ends the recursion is never seen.
pub fn any_numbers()
    ensures { (w : World) (i j number : ℕ) (values : List Value) (h : Where) (s : State) → left_in w.budget s + 1 < i → left_in w.budget s + 1 < j → calls w i number values h s ≡ calls w j number values h s }
{}

/// No call raises what a run can still take: steps, tests and ends of tests.
pub fn nothing_is_given_back()
    ensures { (w : World) (i number : ℕ) (values : List Value) (h : Where) (s : State) → left_in w.budget s + 1 < i → left_in w.budget (calls w i number values h s).1 ≤ left_in w.budget s }
{}

/// At level 1 or more no part of the program raises the steps that are left, and at level 0 none
/// does while one and the same test runs.
pub fn steps_only_fall()
    ensures functions { (w : World) (i number : ℕ) (values : List Value) (h : Where) (s : State) → 1 ≤ h.level → (calls w i number values h s).1.steps ≤ s.steps }
    ensures statements { (w : World) (n i : ℕ) (b : CoreStatement) (h : Where) (s : State) → 1 ≤ h.level → (statement w n (calls w i) b h s).1.steps ≤ s.steps }
    ensures expressions { (w : World) (i : ℕ) (e : CoreExpression) (h : Where) (s : State) → 1 ≤ h.level → (expression w (calls w i) e h s).1.steps ≤ s.steps }
    ensures same_test { (w : World) (n i : ℕ) (b : CoreStatement) (h : Where) (s : State) → SameTest s (statement w n (calls w i) b h s).1
        → (statement w n (calls w i) b h s).1.steps ≤ s.steps }
{}

/// A call takes one step before its function begins, one level deeper, and none of its steps comes
/// back. Without a step left it is not made.
pub fn a_call_takes_a_step()
    ensures one { (w : World) (call : Calls) (number : ℕ) (values : List Value) (h : Where) (s : State) → h.level < 64 → 0 < s.steps
        → (enter w h call number values s).1 ≡ (call number values (record h { level = h.level + 1; frame = [] }) (record s { steps = s.steps - 1 })).1 }
    ensures fewer { (w : World) (i number : ℕ) (values : List Value) (h : Where) (s : State) → h.level < 64 → 0 < s.steps
        → (enter w h (calls w i) number values s).1.steps < s.steps }
    ensures none { (w : World) (call : Calls) (number : ℕ) (values : List Value) (h : Where) (s : State) → h.level < 64 → s.steps ≡ 0
        → enter w h call number values s ≡ (None, failed w h StepBudget s) }
{}

/// A turn of a loop, which its condition lets begin, takes one step before the body, and while a
/// test runs none comes back. Without a step left there is no turn.
pub fn a_turn_takes_a_step()
    ensures one { (w : World) (n : ℕ) (test : Evaluates) (body : Executes) (h : Where) (s t : State) → holds w h test s ≡ (Some true, t) → 0 < t.steps
        → turns w h (suc n) test body s ≡ onwards (body h (record t { steps = t.steps - 1 })) (λ flow. then_go flow (turns w h n test body)) }
    ensures fewer { (w : World) (m n i : ℕ) (e : CoreExpression) (b : CoreStatement) (h : Where) (s t : State) → 1 ≤ h.level
        → holds w h (expression w (calls w i) e) s ≡ (Some true, t) → 0 < t.steps
        → (turns w h (suc n) (expression w (calls w i) e) (statement w m (calls w i) b) s).1.steps < t.steps }
    ensures none { (w : World) (n : ℕ) (test : Evaluates) (body : Executes) (h : Where) (s t : State) → holds w h test s ≡ (Some true, t) → t.steps ≡ 0
        → turns w h (suc n) test body s ≡ (None, failed w h StepBudget t) }
{}

/// `setUp`, a test and `tearDown` together take at most the budget of steps: the test begins with
/// it, and what is left when `tearDown` is through is no more.
pub fn a_test_takes_at_most_the_budget()
    ensures first { (w : World) (name : List ℕ) (line : ℕ) (s : State) → (with_test w name line s).steps ≡ w.budget }
    ensures left { (w : World) (i set_up tear_down : ℕ) (test : Test) (s : State) → (phases_state w (calls w i) set_up tear_down test s).steps ≤ w.budget }
{}

/// Calls nest at most 64 levels: from level 64 no call is made, so what calls above level 64 would
/// do changes nothing.
pub fn no_deeper_calls()
    ensures limit { (w : World) (call : Calls) (number : ℕ) (values : List Value) (h : Where) (s : State) → 64 ≤ h.level
        → enter w h call number values s ≡ (None, failed w h CallDepth s) }
    ensures expressions { (w : World) (f g : Calls) (e : CoreExpression) (h : Where) (s : State) → SameCalls f g → expression w f e h s ≡ expression w g e h s }
    ensures statements { (w : World) (n : ℕ) (f g : Calls) (b : CoreStatement) (h : Where) (s : State) → SameCalls f g → statement w n f b h s ≡ statement w n g b h s }
    ensures functions { (w : World) (n : ℕ) (f g : Calls) (target : Option Target) (values : List Value) (h : Where) (s : State) → SameCalls f g
        → body_of w n f target values h s ≡ body_of w n g target values h s }
{}

/// The verdict that a test has stays, with its line and text, whatever comes after: parts of the
/// program at level 1 or more, at level 0 while the same test runs, or whole phases of the test.
pub fn a_first_failure_stays()
    ensures functions { (w : World) (i number : ℕ) (values : List Value) (h : Where) (s : State) (v : Verdict × ℕ × List ℕ) → 1 ≤ h.level
        → verdict_of s.test ≡ Some v → verdict_of (calls w i number values h s).1.test ≡ Some v }
    ensures statements { (w : World) (n i : ℕ) (b : CoreStatement) (h : Where) (s : State) (v : Verdict × ℕ × List ℕ) → 1 ≤ h.level
        → verdict_of s.test ≡ Some v → verdict_of (statement w n (calls w i) b h s).1.test ≡ Some v }
    ensures expressions { (w : World) (i : ℕ) (e : CoreExpression) (h : Where) (s : State) (v : Verdict × ℕ × List ℕ) → 1 ≤ h.level
        → verdict_of s.test ≡ Some v → verdict_of (expression w (calls w i) e h s).1.test ≡ Some v }
    ensures same_test { (w : World) (n i : ℕ) (b : CoreStatement) (h : Where) (s : State) (v : Verdict × ℕ × List ℕ)
        → SameTest s (statement w n (calls w i) b h s).1 → verdict_of s.test ≡ Some v → verdict_of (statement w n (calls w i) b h s).1.test ≡ Some v }
    ensures phases { (w : World) (i : ℕ) (numbers : List ℕ) (s : State) (v : Verdict × ℕ × List ℕ)
        → verdict_of s.test ≡ Some v → verdict_of (phase w (calls w i) numbers s).test ≡ Some v }
{}

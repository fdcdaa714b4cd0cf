ghost use Rattle.std.specs.Prelude.{◌≤◌, length};

use crate::cases::Case;

// The splits on the way down to the present case, the innermost last. Their records are lent, since nothing here may allocate.
#[derive(Drop)]
pub(crate) struct Stack<'a> {
    cases: &'a mut [Case],
    depth: usize,
    ghost within: { depth ≤ length cases.now },
}

#[tactic(auto, using(crate::proofs::Stacks::length_stack, crate::proofs::Stacks::stack_push))]
impl<'a> Stack<'a> {
    ghost use Rattle.std.specs.Prelude.{◌≡◌, ◌+◌, ◌<◌, [], ◌∷◌, length, slice_set, if◌then◌else◌};
    ghost use Rattle.splits.specs.Stacks.{splits, Popped};

    pub(crate) fn new(cases: &'a mut [Case]) -> Stack<'a>
        ensures empty { splits result ≡ [] }
        ensures room { length result.cases.now ≡ length cases.old }
    {
        Stack { cases, depth: 0 }
    }

    pub(crate) fn len(&self) -> usize
        ensures { result ≡ length (splits self.now) }
    {
        self.depth
    }

    // Goes into a case of a split: it settles the input to the branch.
    pub(crate) fn enter(&mut self, case: Case, settings: &mut [u8])
        requires room { length (splits self.old) < length self.old.cases.now }
        requires input { case.input < length settings.old }
        requires branch { case.branch < 255 }
        ensures pushed { splits self.new ≡ case ∷ splits self.old }
        ensures room { length self.new.cases.now ≡ length self.old.cases.now }
        ensures settled { settings.new ≡ slice_set settings.old case.input (case.branch + 1) }
    {
        self.cases[self.depth] = case;
        self.depth += 1;
        settings[case.input] = case.branch as u8 + 1;
    }

    // Behind a branch that has ended: goes into the next one, or leaves the split open again and answers its record.
    pub(crate) fn turn(&mut self, top: Case, last: bool, settings: &mut [u8]) -> Option<usize>
        requires room { length (splits self.old) < length self.old.cases.now }
        requires input { top.input < length settings.old }
        requires branch { top.branch + 1 < 255 }
        ensures turned { splits self.new ≡ (if last then splits self.old else record { input = top.input; branch = top.branch + 1; number = top.number } ∷ splits self.old) }
        ensures room { length self.new.cases.now ≡ length self.old.cases.now }
        ensures settled { settings.new ≡ slice_set settings.old top.input (if last then 0 else top.branch + 1 + 1) }
        ensures over { result ≡ (if last then Some top.number else None) }
    {
        if last {
            settings[top.input] = 0;
            Some(top.number)
        } else {
            self.enter(top.next(), settings);
            None
        }
    }

    pub(crate) fn pop(&mut self) -> Option<Case>
        ensures popped { Popped result (splits self.old) (splits self.new) }
        ensures room { length self.new.cases.now ≡ length self.old.cases.now }
    {
        if self.depth == 0 {
            return None;
        }
        self.depth -= 1;
        Some(self.cases[self.depth])
    }
}

//! Functions that are built in.

ghost use Rattle.std.specs.Prelude.{◌≡◌};
ghost use Rattle.ct_core.specs.BuiltIns.{built_in_of};

/// A function that is built in.
#[derive(Clone, Copy, Debug, PartialEq, Eq)]
pub enum BuiltIn {
    /// `TEST_ASSERT_EQUAL_INT` of `unity.h`.
    AssertEqualInt,
    /// Calls a function in a phase of a test, and stops an abort.
    RunCall,
    /// Ends a test.
    RunEnd,
    /// Begins the second phase of a test.
    RunPhase,
    /// Begins a test.
    RunTest,
}

/// The function of a name, where one of it is built in.
#[tactic(auto, unfolding(crate::specs::BuiltIns::built_in_of))]
pub fn built_in(name: &[u8]) -> Option<BuiltIn>
    ensures { result ≡ built_in_of name.now }
{
    if b"ceedling_assert_TEST_ASSERT_EQUAL_INT".as_slice() == name {
        Some(BuiltIn::AssertEqualInt)
    } else if b"ceedling_run_call".as_slice() == name {
        Some(BuiltIn::RunCall)
    } else if b"ceedling_run_end".as_slice() == name {
        Some(BuiltIn::RunEnd)
    } else if b"ceedling_run_phase".as_slice() == name {
        Some(BuiltIn::RunPhase)
    } else if b"ceedling_run_test".as_slice() == name {
        Some(BuiltIn::RunTest)
    } else {
        None
    }
}

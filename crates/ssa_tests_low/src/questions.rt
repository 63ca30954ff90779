//! What the tables of cases ask, of one text or of two, and who answers.
use crate::{
    body_fault_tests, body_tests, element_tests, fields_tests, given_up_tests, json_tests,
    kind_tests, merge_tests, schema_tests, set_tests,
};
use std::alloc::Global;
use std::test::Fail;

/// What is asked of one text.
pub enum Question {
    /// A question of JSON.
    Json(json_tests::Asked),
    /// A question of elements.
    Element(element_tests::Asked),
    /// A question of a set of paths.
    Set(set_tests::Asked),
    /// A question of FieldsV1.
    Fields(fields_tests::Asked),
    /// A question of schemas.
    Schema(schema_tests::Asked),
    /// A question of what schemas are read as.
    Kind(kind_tests::Asked),
    /// What the first fault of a value of the sample schema's `spec` is.
    FaultOfSpec,
    /// A question of the body of a value.
    Body(body_tests::Asked),
    /// Which of the paths the sample of a body lacks.
    Lacking,
    /// Which of its own points a value's body lacks.
    LackingPoints,
}

/// The answer to a question of one text.
pub fn answer(alloc: Global, question: &Question, text: &str) -> Result<String, Fail> {
    match question {
        Question::Json(asked) => json_tests::answer(alloc, asked, text),
        Question::Element(asked) => element_tests::answer(alloc, asked, text),
        Question::Set(asked) => set_tests::answer(alloc, asked, text),
        Question::Fields(asked) => fields_tests::answer(alloc, asked, text),
        Question::Schema(asked) => schema_tests::answer(alloc, asked, text),
        Question::Kind(asked) => kind_tests::answer(alloc, asked, text),
        Question::FaultOfSpec => body_fault_tests::fault_of_spec(alloc, text),
        Question::Body(asked) => body_tests::answer(alloc, asked, text),
        Question::Lacking => merge_tests::lacking_of(alloc, text),
        Question::LackingPoints => merge_tests::lacking_points_of(alloc, text),
    }
}

/// What is asked of two texts.
pub enum QuestionOfTwo {
    /// A question of a set of paths beside another.
    Sets(set_tests::AskedBeside),
    /// A question of a path's going from a set.
    Going(set_tests::AskedWithout),
    /// What the first fault of the second text's value under the first text's schema is.
    Fault,
    /// A question of a live body with a configuration over it.
    Over(merge_tests::AskedOver),
    /// A question of a body beside another.
    Bodies(merge_tests::AskedBeside),
    /// What stands at the second text's place of the live body of which the first text's paths are given up.
    SortLeft,
}

/// The answer to a question of two texts.
pub fn answer_of_two(
    alloc: Global,
    question: &QuestionOfTwo,
    first: &str,
    second: &str,
) -> Result<String, Fail> {
    match question {
        QuestionOfTwo::Sets(asked) => set_tests::beside(alloc, asked, first, second),
        QuestionOfTwo::Going(asked) => set_tests::without(alloc, asked, first, second),
        QuestionOfTwo::Fault => body_fault_tests::fault_under(alloc, first, second),
        QuestionOfTwo::Over(asked) => merge_tests::told_over(alloc, asked, first, second),
        QuestionOfTwo::Bodies(asked) => merge_tests::beside(alloc, asked, first, second),
        QuestionOfTwo::SortLeft => given_up_tests::sort_left(alloc, first, second),
    }
}

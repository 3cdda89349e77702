// The one way in which a query fails once its own tests are passed: a word of the store that it reads is unsound. It is a link, a page
// of the index with no entry up to the second or one row more than there are tags (look-back), or a tag of D or more (window); which one is not told, since
// refusal 12 tells no more.
#[derive(Clone, Copy)]
pub struct Unsound;

//! A page of one word, and one whose last word differs.
use super::{fill, same_word};
use zr_base::Page;

#[test]
fn fills_a_page(rt: HostRuntime) {
    let mut page = Page::zero();
    assert_eq!(rt; same_word(&page), Some(0));
    fill(&mut page, 0x0807_0605_0403_0201);
    assert_eq!(rt; page.bytes()[4088], 1);
    assert_eq!(rt; page.bytes()[4095], 8);
    assert_eq!(rt; same_word(&page), Some(0x0807_0605_0403_0201));
    let mut bytes = *page.bytes();
    bytes[4095] = 9;
    page.put_bytes(&bytes);
    assert_eq!(rt; same_word(&page), None);
}

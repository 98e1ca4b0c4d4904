//! The built-in headers. Each is read once. `size_t` stands in each of three that have it, since a type may be named again as the same
//! (C11 6.7p3): so no macro guards it, and none can take it away.

ghost use Rattle.std.specs.Prelude.{◌≡◌, IfOk};
ghost use Rattle.std.specs.Option.{option_copied};
ghost use Rattle.ct_directive.specs.Headers.{built_in_headers};
ghost use Rattle.ct_directive.specs.Search.{built_in_named, text_in};

use crate::search::Target;
use ct_base::{Bytes, Mem, Text};
use std::alloc::Global;

/// `stdint.h` (C11 7.20).
pub const STDINT: &str = "#pragma once
typedef signed char int8_t;
typedef unsigned char uint8_t;
typedef short int16_t;
typedef unsigned short uint16_t;
typedef int int32_t;
typedef unsigned int uint32_t;
typedef long long int64_t;
typedef unsigned long long uint64_t;
#define INT8_MIN (-128)
#define INT8_MAX 127
#define UINT8_MAX 255
#define INT16_MIN (-32768)
#define INT16_MAX 32767
#define UINT16_MAX 65535
#define INT32_MIN (-2147483647 - 1)
#define INT32_MAX 2147483647
#define UINT32_MAX 4294967295U
#define INT64_MIN (-9223372036854775807LL - 1)
#define INT64_MAX 9223372036854775807LL
#define UINT64_MAX 18446744073709551615ULL
";

/// `stdbool.h` (C11 7.18).
pub const STDBOOL: &str = "#pragma once
#define bool _Bool
#define true 1
#define false 0
#define __bool_true_false_are_defined 1
";

/// `stddef.h` (C11 7.19).
pub const STDDEF: &str = "#pragma once
typedef unsigned long size_t;
typedef long ptrdiff_t;
#define NULL ((void *)0)
";

/// `limits.h` (C11 5.2.4.2.1).
pub const LIMITS: &str = "#pragma once
#define CHAR_BIT 8
#define SCHAR_MIN (-128)
#define SCHAR_MAX 127
#define UCHAR_MAX 255
#define CHAR_MIN (-128)
#define CHAR_MAX 127
#define MB_LEN_MAX 1
#define SHRT_MIN (-32768)
#define SHRT_MAX 32767
#define USHRT_MAX 65535
#define INT_MIN (-2147483647 - 1)
#define INT_MAX 2147483647
#define UINT_MAX 4294967295U
#define LONG_MIN (-9223372036854775807L - 1)
#define LONG_MAX 9223372036854775807L
#define ULONG_MAX 18446744073709551615UL
#define LLONG_MIN (-9223372036854775807LL - 1)
#define LLONG_MAX 9223372036854775807LL
#define ULLONG_MAX 18446744073709551615ULL
";

/// `stdio.h`: `size_t` and `NULL` alone (C11 7.21.1).
pub const STDIO: &str = "#pragma once
typedef unsigned long size_t;
#define NULL ((void *)0)
";

/// `string.h`: the functions that are built in (C11 7.24).
pub const STRING: &str = "#pragma once
void *memcpy(void *, const void *, unsigned long);
void *memmove(void *, const void *, unsigned long);
void *memset(void *, int, unsigned long);
int memcmp(const void *, const void *, unsigned long);
unsigned long strlen(const char *);
int strcmp(const char *, const char *);
int strncmp(const char *, const char *, unsigned long);
char *strcpy(char *, const char *);
char *strncpy(char *, const char *, unsigned long);
";

/// `stdlib.h`: the functions that are built in, `size_t` and `NULL` (C11 7.22).
pub const STDLIB: &str = "#pragma once
typedef unsigned long size_t;
#define NULL ((void *)0)
void *malloc(unsigned long);
void *calloc(unsigned long, unsigned long);
void free(void *);
";

/// `unity.h`: the assertions.
pub const UNITY: &str = "#pragma once
void ceedling_assert_TEST_ASSERT_EQUAL_INT(unsigned int, long long, long long);
#define TEST_ASSERT_EQUAL_INT(e, a) ceedling_assert_TEST_ASSERT_EQUAL_INT(__LINE__, e, a)
";

/// `cmock.h`: what generated files call.
pub const CMOCK: &str = "#pragma once
void ceedling_run_test(const char *, unsigned int);
void ceedling_run_call(void (*)(void));
void ceedling_run_phase(void);
void ceedling_run_end(void);
";

/// The text of the built-in header of a name.
#[tactic(auto, unfolding(crate::specs::Headers::built_in_headers))]
fn text_of(name: &str) -> Option<&'static str>
    ensures { option_copied result ≡ text_in built_in_headers name.now }
{
    match name {
        "stdint.h" => Some(STDINT),
        "stdbool.h" => Some(STDBOOL),
        "stddef.h" => Some(STDDEF),
        "limits.h" => Some(LIMITS),
        "stdio.h" => Some(STDIO),
        "string.h" => Some(STRING),
        "stdlib.h" => Some(STDLIB),
        "unity.h" => Some(UNITY),
        "cmock.h" => Some(CMOCK),
        _ => None,
    }
}

/// The built-in header of a name.
pub fn built_in(alloc: Global, name: &str) -> Mem<Option<Target>>
    ensures { IfOk result (λ target. target ≡ built_in_named built_in_headers name.now) }
{
    let Some(text) = text_of(name) else {
        return Ok(None);
    };
    let mut path = String::new(alloc);
    path.push('<')?;
    path.push_str(name)?;
    path.push('>')?;
    Ok(Some(Target {
        path: Text::new(path),
        text: Bytes::from_slice(alloc, text.as_bytes())?,
        built_in: true,
    }))
}

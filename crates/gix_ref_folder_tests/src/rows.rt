//! Rows of `folder` of `gix_ref_cases`: words of both parts, and what they return.

pub const ROWS: [(&str, &str); 6] = [
    (
        "o:folder:objects o:folder:objects/ab o:write:objects/ab/cd:blob n:folder:refs n:write:HEAD:ref n:append:refs/x:1 o:list:- n:list:-",
        "done done done done done done names:objects names:HEAD:refs",
    ),
    (
        "o:folder:objects o:folder:objects/ab o:write:objects/ab/cd:blob n:folder:refs n:write:HEAD:ref n:append:refs/x:1 o:kind:HEAD n:kind:objects n:kind:objects/ab/cd",
        "done done done done done done absent absent absent",
    ),
    (
        "o:folder:objects o:folder:objects/ab o:write:objects/ab/cd:blob n:folder:refs n:write:HEAD:ref n:append:refs/x:1 n:write:objects/x:1 o:write:refs/y:1 n:rename:HEAD:objects/x o:list:objects n:list:refs",
        "done done done done done done failed failed failed names:ab names:x",
    ),
    (
        "o:folder:objects o:folder:objects/ab o:write:objects/ab/cd:blob n:folder:refs n:write:HEAD:ref n:append:refs/x:1 n:create:HEAD n:create:new n:create:refs n:read:new",
        "done done done done done done stands done stands 0:so%20",
    ),
    (
        "o:folder:objects o:folder:objects/ab o:write:objects/ab/cd:blob n:folder:refs n:write:HEAD:ref n:append:refs/x:1 n:append:HEAD:%2b n:read:HEAD n:write:HEAD:x n:read:HEAD",
        "done done done done done done done 4:so%20ref%2b done 1:so%20x",
    ),
    (
        "o:folder:objects o:folder:objects/ab o:write:objects/ab/cd:blob n:folder:refs n:write:HEAD:ref n:append:refs/x:1 n:rename:HEAD:refs/x n:list:- n:read:refs/x",
        "done done done done done done done names:refs 3:so%20ref",
    ),
];

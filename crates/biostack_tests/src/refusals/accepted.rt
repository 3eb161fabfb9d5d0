//! Texts without a fault.

/// Texts that are accepted.
pub const ACCEPTED: &[&str] = &[
    "",
    "\n",
    "\n\n \t\r\n",
    "# nothing",
    "# nothing\n#\n  #disk a 0\n",
    "fs",
    "fs\n",
    "fs vecs=1 bios=1024\n",
    "fs bios=0001\n",
    "memory none\n",
    "disk a 64",
    "disk a 64\n",
    "disk\ra\t64  \r\n",
    "disk a 64\r\nwrite 0 a 0 1 0\r\n",
    "disk a 64\nwrite 0 a 0 1 0",
    "disk a 64\nwrite 0 a 0 1 0\n\n# more\nwrite 7 a 1 63 18446744073709551615\n",
    "disk a 64\nwrite 07 a 00000000000000000063 1 00\n",
    "disk a 00000000000000000064\n",
    "disk a 262144\n",
    "disk a 262143\ndisk b 1\n",
    "disk a 4096\nwrite 0 a 0 2048 0\nwrite 0 a 2048 2048 0\n",
    // Names, which may be words of other places.
    "disk a234567890123456 64\nwrite 0 a234567890123456 0 1 0\n",
    "disk a-b_c-1 64\ndisk A 64\ndisk FS 64\ndisk fs0 64\ndisk f 64\n",
    "disk disk 8\ndisk none 8\ndisk io 8\ndisk write 8\nmirror memory disk none io\nwrite 0 write 0 1 0\n",
    "disk chunk 8\nstripe bios chunk=8 chunk\nscript bios.bios . +\n",
    // Bad ranges.
    "disk a 64\nbad a 63 1 nospace\nbad a 0 64 medium\nbad a 0 64 io\nbad a 5 3 io\n",
    "disk a 64\nlinear n a\nbad a 0 1 io\nwrite 0 n 0 1 0\n",
    // Options and members in any mix.
    "disk a 8\ndisk b 8\nlinear n a reserve=1 b\n",
    "disk a 8\ndisk b 8\nlinear n rescuer=yes b reserve=1024 a\n",
    "disk a 8\ndisk b 8\nstripe s a rescuer=no b reserve=1 chunk=8\n",
    "disk a 8\nlimit l a chunk=8 max=3 rescuer=yes reserve=7\n",
    "disk a 8\nlimit l chunk=0 a max=18446744073709551615\n",
    "disk a 8\nlimit l max=1 chunk=18446744073709551615 a\n",
    "disk a 8\ndisk b 8\nmirror m records=1 a reserve=1024 b rescuer=yes\n",
    "disk a 8\ndisk b 8\nlinear n a b rescuer=no\n",
    "disk a 8\nmirror m a rescuer=no\n",
    // Scripts.
    "script fs.bios +-+- -\nscript fs.vecs . +\n",
    "memory none\ndisk a 8\nmirror m a\nscript m.records - +\nscript m.bios + -\n",
    "disk a 8\nlinear n a\nscript n.bios --------------------+ +\nmemory none\n",
    // Writes that touch, and writes of the same sectors of other devices.
    "disk a 64\nwrite 0 a 8 8 0\nwrite 0 a 0 8 0\nwrite 0 a 16 48 0\n",
    "disk a 64\ndisk b 64\nwrite 0 a 0 8 0\nwrite 0 b 0 8 0\n",
];
